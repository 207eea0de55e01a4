//! What the definitions mean, as contracts of functions that do nothing.

ghost use Rattle.std.specs.Prelude.{◌≡◌, ℕ, ◌+◌, ◌*◌, ◌<◌, ◌≤◌, ◌↔◌, List, Some};
ghost use Rattle.units_um.specs.Number.{Number, Spells};
ghost use Rattle.units_um.specs.Reading.{reading};
ghost use Rattle.units_um.specs.Thousandths.{nearest};

/// What a text is read as is what it spells, and no text spells two numbers.
pub fn one_reading()
    ensures read { (text : List ℕ) (n : Number) → Spells text n ↔ (reading text ≡ Some n) }
    ensures single { (text : List ℕ) (m n : Number) → Spells text m → Spells text n → m ≡ n }
{}

/// The nearest whole number is at most half away from the fraction, and above it where it is exactly half away.
pub fn half_up()
    ensures { (num den : ℕ)
        → 0 < den
        → (2 * (nearest num den * den) ≤ 2 * num + den) × (2 * num < 2 * (nearest num den * den) + den) }
{}
