//! Texts in buffers that only grow at their ends.

ghost use Rattle.std.specs.Prelude.{◌≡◌, ◌+◌, ◌-◌, ◌^◌, ◌<◌, ◌≤◌, ◌++◌, [], length, take, drop, slice_index_or, ◌↔◌, IsTrue, IfOk, OnOk, OnErr};
ghost use Rattle.snap_arena.specs.Texts.{Extends, IsAdded, IsHeld, JoinsWhere, is_too_long, text_in};
ghost use Rattle.snap_arena.specs.Views.{units};

use crate::buffers::{gather, length_of, put_text, put_units, units_of};
use crate::fault::JoinFault;
use crate::held::HeldText;
use crate::view::TextView;
use snap_base::MOST_ITEMS;
use snap_text::NoMemory;
use std::alloc::Global;
use std::marker::Model;

// A text of up to so many units shares a buffer with others.
const SHARED_MOST: usize = 1024;

// A shared buffer gets no text that would bring it past so many units.
const CURRENT_MOST: usize = 32_768;

// Two texts that are copied into one of up to so many units are held as any text is. A longer one gets a buffer with
// room for as many units again.
const JOINED_MOST: usize = 64;

/// Texts in buffers that only grow at their ends, so that each text keeps its units for good, in one piece. It is seen as
/// the list of its buffers. Nothing is given back before the arena goes.
#[derive(Drop)]
pub struct Arena {
    alloc: Global,
    buffers: Vec<Vec<u16>>,
    current: usize,
}

impl Model for Arena {
    ghost use Rattle.std.specs.Prelude.{ℕ, List};
    ghost use Rattle.snap_arena.specs.Texts.{AreSmall, contents};

    ghost Value = { List (List ℕ) };

    ghost view = { λ arena. contents arena.buffers.items };

    ghost invariant = { λ arena. AreSmall (contents arena.buffers.items) };
}

impl Arena {
    /// An arena without a text. It takes no memory.
    pub fn new(alloc: Global) -> Arena
        ensures { result ≡ [] }
    {
        Arena {
            alloc,
            buffers: Vec::new(alloc),
            current: 0,
        }
    }

    /// The text of these units, or want of memory, as where 2^32 units or 2^32 buffers would have to be counted.
    pub fn hold(&mut self, units: &[u16]) -> Result<HeldText, NoMemory>
        ensures held { IfOk result (IsHeld self.new) }
        ensures text { IfOk result (λ held. text_in self.new held ≡ units.now) }
        ensures grows { Extends self.old self.new }
        ensures err { OnErr result (self.new ≡ self.old) }
    {
        self.hold_units(units)
    }

    /// The units of one text and then those of another, as one text. Where the left one ends its buffer, the right one is
    /// put behind it and the left one is not copied; n joins of one unit behind another take time and memory in proportion to n.
    pub fn join(&mut self, left: HeldText, right: HeldText) -> Result<HeldText, JoinFault>
        requires left { IsHeld self.old left }
        requires right { IsHeld self.old right }
        ensures fault { JoinsWhere (is_too_long (text_in self.old left) (text_in self.old right)) result }
        ensures held { IfOk result (IsHeld self.new) }
        ensures text { IfOk result (λ held. text_in self.new held ≡ text_in self.old left ++ text_in self.old right) }
        ensures grows { Extends self.old self.new }
        ensures err { OnErr result (self.new ≡ self.old) }
    {
        if u64::from(left.length) + u64::from(right.length) > u64::from(MOST_ITEMS) {
            return Err(JoinFault::TooLong);
        }
        let held = self.join_short_enough(left, right)?;
        Ok(held)
    }

    /// The part of a text from one place to another. Nothing is copied.
    pub fn part(&self, held: HeldText, from: u32, to: u32) -> HeldText
        requires held { IsHeld self.now held }
        requires order { from ≤ to }
        requires within { to ≤ length (text_in self.now held) }
        ensures held { IsHeld self.now result }
        ensures text { text_in self.now result ≡ take (to - from) (drop from (text_in self.now held)) }
    {
        let _ = &self.buffers;
        HeldText {
            buffer: held.buffer,
            start: held.start + from,
            length: to - from,
        }
    }

    /// A view of a text.
    pub fn view(&self, held: HeldText) -> TextView<'_>
        requires { IsHeld self.now held }
        ensures { units result ≡ text_in self.now held }
    {
        TextView::Wide(units_of(self.buffers.as_slice(), held))
    }

    // Two texts as one, which is not too long.
    fn join_short_enough(&mut self, left: HeldText, right: HeldText) -> Result<HeldText, NoMemory>
        requires left { IsHeld self.old left }
        requires right { IsHeld self.old right }
        requires short { left.length + right.length < 2 ^ 32 }
        ensures ok { IfOk result (IsAdded self.old (text_in self.old left ++ text_in self.old right) self.new) }
        ensures err { OnErr result (self.new ≡ self.old) }
    {
        if left.length == 0 {
            return Ok(right);
        }
        if right.length == 0 {
            return Ok(left);
        }
        if self.has_room_behind(left, right.length) {
            self.join_in_place(left, right)
        } else {
            self.join_apart(left, right)
        }
    }

    // Whether a text ends its buffer, and so many units may stand behind it.
    fn has_room_behind(&self, held: HeldText, more: u32) -> bool
        ensures { IsTrue result ↔ ((held.start + held.length ≡ length (slice_index_or self.now held.buffer []))
            × (length (slice_index_or self.now held.buffer []) + more < 2 ^ 32)) }
    {
        let length = length_of(self.buffers.as_slice(), held.buffer as usize);
        held.start as usize + held.length as usize == length && length + (more as usize) < 1 << 32
    }

    // Two texts as one, of which the left one ends its buffer.
    fn join_in_place(&mut self, left: HeldText, right: HeldText) -> Result<HeldText, NoMemory>
        requires some { 0 < left.length }
        requires right { IsHeld self.old right }
        requires end { left.start + left.length ≡ length (slice_index_or self.old left.buffer []) }
        requires room { length (slice_index_or self.old left.buffer []) + right.length < 2 ^ 32 }
        ensures ok { IfOk result (IsAdded self.old (text_in self.old left ++ text_in self.old right) self.new) }
        ensures err { OnErr result (self.new ≡ self.old) }
    {
        put_text(self.alloc, &mut self.buffers, left.buffer as usize, right)?;
        Ok(HeldText {
            buffer: left.buffer,
            start: left.start,
            length: left.length + right.length,
        })
    }

    // Two texts as one that stands elsewhere.
    fn join_apart(&mut self, left: HeldText, right: HeldText) -> Result<HeldText, NoMemory>
        requires left { IsHeld self.old left }
        requires right { IsHeld self.old right }
        ensures ok { IfOk result (IsAdded self.old (text_in self.old left ++ text_in self.old right) self.new) }
        ensures err { OnErr result (self.new ≡ self.old) }
    {
        if left.length as usize + right.length as usize <= JOINED_MOST {
            self.join_small(left, right)
        } else {
            self.join_large(left, right)
        }
    }

    // Two texts as a short one, which is held as any text is.
    fn join_small(&mut self, left: HeldText, right: HeldText) -> Result<HeldText, NoMemory>
        requires left { IsHeld self.old left }
        requires right { IsHeld self.old right }
        requires short { left.length + right.length ≤ 64 }
        ensures ok { IfOk result (IsAdded self.old (text_in self.old left ++ text_in self.old right) self.new) }
        ensures err { OnErr result (self.new ≡ self.old) }
    {
        let mut units = [0; JOINED_MOST];
        let buffers = self.buffers.as_slice();
        gather(
            &mut units,
            units_of(buffers, left),
            units_of(buffers, right),
        );
        self.hold_units(&units[..left.length as usize + right.length as usize])
    }

    // Two texts as one in a buffer of its own, with room for as many units again.
    fn join_large(&mut self, left: HeldText, right: HeldText) -> Result<HeldText, NoMemory>
        requires left { IsHeld self.old left }
        requires right { IsHeld self.old right }
        ensures ok { IfOk result (IsAdded self.old (text_in self.old left ++ text_in self.old right) self.new) }
        ensures err { OnErr result (self.new ≡ self.old) }
    {
        let length = left.length as usize + right.length as usize;
        let mut buffer = Vec::with_capacity(self.alloc, 2 * length)?;
        buffer.extend_from_slice(units_of(self.buffers.as_slice(), left))?;
        buffer.extend_from_slice(units_of(self.buffers.as_slice(), right))?;
        self.add(buffer)
    }

    // The text of these units.
    fn hold_units(&mut self, units: &[u16]) -> Result<HeldText, NoMemory>
        ensures ok { IfOk result (IsAdded self.old units.now self.new) }
        ensures err { OnErr result (self.new ≡ self.old) }
    {
        if units.is_empty() {
            return Ok(HeldText {
                buffer: 0,
                start: 0,
                length: 0,
            });
        }
        if units.len() > SHARED_MOST {
            let buffer = Vec::from_slice(self.alloc, units)?;
            return self.add(buffer);
        }
        self.hold_shared(units)
    }

    // The text of these units, in the current buffer where that has room, or else in a new one.
    fn hold_shared(&mut self, units: &[u16]) -> Result<HeldText, NoMemory>
        requires { length units.now ≤ 1024 }
        ensures ok { IfOk result (IsAdded self.old units.now self.new) }
        ensures err { OnErr result (self.new ≡ self.old) }
    {
        let number = self.current;
        let length = length_of(self.buffers.as_slice(), number);
        if number < self.buffers.len() && length + units.len() <= CURRENT_MOST {
            self.hold_behind(number, units)
        } else {
            self.begin_current(units)
        }
    }

    // The text of these units, behind those of a buffer.
    fn hold_behind(&mut self, number: usize, units: &[u16]) -> Result<HeldText, NoMemory>
        requires place { number < length self.old }
        requires room { length (slice_index_or self.old number []) + length units.now < 2 ^ 32 }
        ensures ok { IfOk result (IsAdded self.old units.now self.new) }
        ensures err { OnErr result (self.new ≡ self.old) }
    {
        let buffer = number_of(number)?;
        let start = number_of(length_of(self.buffers.as_slice(), number))?;
        let length = number_of(units.len())?;
        put_units(&mut self.buffers, number, units)?;
        Ok(HeldText {
            buffer,
            start,
            length,
        })
    }

    // The text of these units, at the start of a new current buffer.
    fn begin_current(&mut self, units: &[u16]) -> Result<HeldText, NoMemory>
        ensures ok { IfOk result (IsAdded self.old units.now self.new) }
        ensures err { OnErr result (self.new ≡ self.old) }
    {
        let buffer = Vec::from_slice(self.alloc, units)?;
        let held = self.add(buffer)?;
        self.current = held.buffer as usize;
        Ok(held)
    }

    // The text that is the whole of a new buffer.
    fn add(&mut self, buffer: Vec<u16>) -> Result<HeldText, NoMemory>
        ensures ok { IfOk result (IsAdded self.old buffer.items self.new) }
        ensures err { OnErr result (self.new ≡ self.old) }
    {
        let number = number_of(self.buffers.len())?;
        let length = number_of(buffer.len())?;
        self.buffers.push(buffer)?;
        Ok(HeldText {
            buffer: number,
            start: 0,
            length,
        })
    }
}

// A count as a number of 32 bits.
fn number_of(count: usize) -> Result<u32, NoMemory>
    ensures same { IfOk result (λ number. number ≡ count) }
    ensures fits { OnOk result (count < 2 ^ 32) }
{
    if count >= 1 << 32 {
        return Err(NoMemory);
    }
    Ok(count as u32)
}
