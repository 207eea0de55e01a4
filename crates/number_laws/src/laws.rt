//! The two grammars of numbers.

ghost use Rattle.std.specs.Prelude.{◌≡◌, ◌↔◌, ◌⊎◌, ◌++◌, List, ℕ, None, Some, Err};
ghost use Rattle.std.specs.List.{filter};
ghost use Rattle.p21_lex.specs.Class.{is_digit};
ghost use Rattle.p21_lex.specs.Reading.{Spells};
ghost use Rattle.p21_lex.specs.declared.token.TokenKind.TheVariants as kinds;
ghost use Rattle.units_um.specs.Number.{Number, Fraction, Spells as SpellsNumber};
ghost use Rattle.units_um.specs.Thousandths.{IsShort, digits_behind, exponent_in, exponent_digits, thousandths_of};
ghost use Rattle.units_um.specs.declared.fault.UnitErr.TheVariants.{NotNumber};

/// A text is an Int or a Real token (ISO 10303-21, tokens, with this profile's limit of digits) exactly where it is a number that is read in
/// thousandths, and both count the same digits. So no token of a number is refused as none, and nothing else is read. It does nothing.
pub fn number_laws()
    // An Int is a number without a fraction, a Real is one with a fraction.
    ensures int { (text : List ℕ) → Spells kinds.Int text ↔ ((n : Number) × IsShort text n × (n.fraction ≡ None)) }
    ensures real { (text : List ℕ) → Spells kinds.Real text ↔ ((n : Number) × (f : Fraction) × IsShort text n × (n.fraction ≡ Some f)) }
    // The digits of the text are those of the number: before the point, behind it and in the exponent.
    ensures digits { (text : List ℕ) (n : Number) → SpellsNumber text n
        → filter is_digit text ≡ n.whole ++ (digits_behind n.fraction ++ exponent_digits (exponent_in n.fraction)) }
    // What is refused as no number is no such token.
    ensures refused { (text : List ℕ) → (thousandths_of text ≡ Err NotNumber) ↔ ((Spells kinds.Int text ⊎ Spells kinds.Real text) → ⊥) }
{}
