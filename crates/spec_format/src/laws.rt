//! The laws of the blob format. Each function does nothing: what it ensures holds of all bytes.

ghost use Rattle.std.specs.Prelude.{◌≡◌, ℕ, List, [], ◌++◌};
ghost use Rattle.spec_format.specs.declared.fault.BlobFault.{BlobFault};
ghost use Rattle.spec_format.specs.Check.{AllHold, FirstFault};
ghost use Rattle.spec_format.specs.Container.{container_checks, container, sections_of, AreSections};
ghost use Rattle.spec_format.specs.Laws.{AreNodeEnds, IsSpelledWith};
ghost use Rattle.spec_format.specs.Number.{AreBytes};
ghost use Rattle.spec_format.specs.Strings.{string_list_checks, trailing_check, string_list, strings_of, node_ends_of, AreStrings};

/// A container has one first fault at most, and none where its checks hold. So a reader that meets
/// its contract has no choice of what it answers.
pub fn one_container_fault()
    ensures one { (bytes : List ℕ) (f g : BlobFault)
        → FirstFault (container_checks bytes) f → FirstFault (container_checks bytes) g → f ≡ g }
    ensures none { (bytes : List ℕ) (f : BlobFault)
        → AllHold (container_checks bytes) → FirstFault (container_checks bytes) f → ⊥ }
{}

/// The same of a list of strings that fills its section, wherever the section begins in the blob.
pub fn one_string_fault()
    ensures one { (section : List ℕ) (base : ℕ) (f g : BlobFault)
        → FirstFault (string_list_checks section base ++ trailing_check section base) f
        → FirstFault (string_list_checks section base ++ trailing_check section base) g → f ≡ g }
    ensures none { (section : List ℕ) (base : ℕ) (f : BlobFault)
        → AllHold (string_list_checks section base ++ trailing_check section base)
        → FirstFault (string_list_checks section base ++ trailing_check section base) f → ⊥ }
{}

/// Bytes that pass the checks of a container are the container of the sections that are read from
/// them, to the last byte: no other bytes pass.
pub fn container_is_spelled()
    ensures { (bytes : List ℕ) → AreBytes bytes → AllHold (container_checks bytes)
        → AreSections (sections_of bytes) × (bytes ≡ container 1 (sections_of bytes)) }
{}

/// The container of any sections that fit passes the checks, and those sections are read from it.
pub fn container_is_read()
    ensures passes { (sections : List (List ℕ)) → AreSections sections
        → AllHold (container_checks (container 1 sections)) }
    ensures same { (sections : List (List ℕ)) → AreSections sections
        → sections_of (container 1 sections) ≡ sections }
{}

/// A section that passes the checks of a list of strings begins with the one spelling of the strings
/// and the ends of nodes that are read from it. Where nothing may stand behind the strings, that
/// spelling is the whole section.
pub fn strings_are_spelled()
    ensures front { (section : List ℕ) (base : ℕ) → AreBytes section
        → AllHold (string_list_checks section base)
        → (rest : List ℕ) × IsSpelledWith section rest }
    ensures whole { (section : List ℕ) (base : ℕ) → AreBytes section
        → AllHold (string_list_checks section base ++ trailing_check section base)
        → IsSpelledWith section [] }
{}

/// A list of any strings and ends of nodes that fit passes the checks, whatever follows it, and
/// those strings and ends are read from it. With nothing behind it, it fills its section.
pub fn strings_are_read()
    ensures passes { (strings : List (List ℕ)) (node_ends rest : List ℕ) (base : ℕ)
        → AreStrings strings → AreNodeEnds node_ends
        → AllHold (string_list_checks (string_list strings node_ends rest) base) }
    ensures fills { (strings : List (List ℕ)) (node_ends : List ℕ) (base : ℕ)
        → AreStrings strings → AreNodeEnds node_ends
        → AllHold (trailing_check (string_list strings node_ends []) base) }
    ensures strings { (strings : List (List ℕ)) (node_ends rest : List ℕ)
        → AreStrings strings → AreNodeEnds node_ends
        → strings_of (string_list strings node_ends rest) ≡ strings }
    ensures node_ends { (strings : List (List ℕ)) (node_ends rest : List ℕ)
        → AreStrings strings → AreNodeEnds node_ends
        → node_ends_of (string_list strings node_ends rest) ≡ node_ends }
{}
