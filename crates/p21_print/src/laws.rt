//! What holds of every printed text.

ghost use Rattle.std.specs.Prelude.{◌≡◌, ℕ, List};
ghost use Rattle.p21_parse.specs.declared.error.ReadErr.{ReadErr};
ghost use Rattle.p21_parse.specs.declared.error.ReadErr.TheVariants as errors;
ghost use Rattle.p21_parse.specs.Tree.{ExchangeTree};
ghost use Rattle.p21_parse.specs.Allowed.{IsAllowed};
ghost use Rattle.p21_parse.specs.Spelled.{IsSpelled};
ghost use Rattle.p21_parse.specs.Text.{IsText, IsRefusedText};
ghost use Rattle.p21_print.specs.Printed.{printed};

use p21_parse::text_laws;

/// The laws of printing: an exchange that the grammar and the limits allow, and whose every symbol is that of a token, is
/// printed as a text that holds it, holds no other and is refused for want of memory alone. Every exchange that a text holds is
/// such a one, so it is printed as a text of itself, whatever blanks, comments and leading zeros it was read with. It does nothing.
pub fn print_laws()
    ensures reads_back { (x : ExchangeTree) → IsAllowed x → IsSpelled x → IsText (printed x) x }
    ensures same { (x y : ExchangeTree) → IsAllowed x → IsSpelled x → IsText (printed x) y → y ≡ x }
    ensures memory { (x : ExchangeTree) (e : ReadErr) → IsAllowed x → IsSpelled x → IsRefusedText (printed x) e → e ≡ errors.NoMemory }
    ensures spelled { (bytes : List ℕ) (x : ExchangeTree) → IsText bytes x → IsSpelled x }
    ensures again { (bytes : List ℕ) (x : ExchangeTree) → IsText bytes x → IsText (printed x) x }
{
    text_laws();
}
