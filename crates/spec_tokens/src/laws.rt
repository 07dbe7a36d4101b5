//! The laws of tokens. Each function does nothing: what it ensures holds of every source.

ghost use Rattle.std.specs.Prelude.{◌≡◌, ◌⊎◌, ◌++◌, ◌∷◌, [], true, ℕ, List, Ok, Err};
ghost use Rattle.spec_tokens.specs.declared.fault.LexFault.{LexFault};
ghost use Rattle.spec_tokens.specs.declared.fault.LexFault.TheVariants.{NoMemory};
ghost use Rattle.spec_tokens.specs.Faults.{HasFault};
ghost use Rattle.spec_tokens.specs.Laws.{AreTokens};
ghost use Rattle.spec_tokens.specs.Byte.{is_quote};
ghost use Rattle.spec_tokens.specs.Shape.{AreItems, joined};
ghost use Rattle.spec_tokens.specs.Text.{text_units};
ghost use Rattle.spec_tokens.specs.Tokens.{Lexeme, lexemes};
ghost use Rattle.spec_tokens.specs.Units.{AreUnits};

/// Tokens in the language's own words are those that are read.
pub fn tokens_are_read()
    ensures { (source : List ℕ) (list : List Lexeme) → AreTokens source list → lexemes source ≡ Ok list }
{}

/// A source has one list of tokens at most, and none where a fault is read.
pub fn one_token_list()
    ensures one { (source : List ℕ) (list other : List Lexeme) → AreTokens source list → AreTokens source other → list ≡ other }
    ensures none { (source : List ℕ) (list : List Lexeme) (fault : LexFault) → AreTokens source list → lexemes source ≡ Err fault → ⊥ }
{}

/// What is read are tokens in the language's own words.
pub fn read_are_tokens()
    ensures { (source : List ℕ) (list : List Lexeme) → lexemes source ≡ Ok list → AreTokens source list }
{}

/// A fault in the language's own words is the one that is read.
pub fn faults_are_read()
    ensures { (source : List ℕ) (fault : LexFault) → HasFault source fault → lexemes source ≡ Err fault }
{}

/// What is read as a fault is one in the language's own words.
pub fn read_are_faults()
    ensures { (source : List ℕ) (fault : LexFault) → lexemes source ≡ Err fault → HasFault source fault }
{}

/// A source has one fault at most, none where it has tokens, and want of memory is none.
pub fn one_fault()
    ensures one { (source : List ℕ) (fault other : LexFault) → HasFault source fault → HasFault source other → fault ≡ other }
    ensures none { (source : List ℕ) (list : List Lexeme) (fault : LexFault) → AreTokens source list → HasFault source fault → ⊥ }
    ensures memory { (source : List ℕ) → HasFault source NoMemory → ⊥ }
{}

/// Each source has tokens or a fault.
pub fn tokens_or_fault()
    ensures { (source : List ℕ) → ((list : List Lexeme) × AreTokens source list) ⊎ ((fault : LexFault) × HasFault source fault) }
{}

/// The units of a text, which is a quote, items and the same quote, are one an item: its byte, or what
/// its escape stands for.
pub fn one_unit_an_item()
    ensures { (quote : ℕ) (items : List (List ℕ)) (rest : List ℕ) → is_quote quote ≡ true → AreItems quote items (quote ∷ rest) → AreUnits items (quote ∷ rest) (text_units (quote ∷ (joined items ++ quote ∷ []))) }
{}
