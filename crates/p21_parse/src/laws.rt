//! What holds of the grammar and its refusals whatever reads it.

ghost use Rattle.std.specs.Prelude.{ℕ, List, false, ◌≡◌, ◌≤◌, ◌⊎◌, ◌↔◌, drop, map};
ghost use Rattle.std.specs.List.{AllByRecursion};
ghost use Rattle.p21_lex.specs.declared.token.Token.{Token};
ghost use Rattle.p21_lex.specs.Reading.{IsToken};
ghost use Rattle.p21_parse.specs.Tree.{InstanceTree, ExchangeTree};
ghost use Rattle.p21_parse.specs.Symbol.{Symbol, symbols};
ghost use Rattle.p21_parse.specs.Spell.{spell_all, spell_instance, spell_file};
ghost use Rattle.p21_parse.specs.Grammar.{IsExchange};
ghost use Rattle.p21_parse.specs.Nesting.{exchange_nesting, IsShallow};
ghost use Rattle.p21_parse.specs.Places.{Refusal};
ghost use Rattle.p21_parse.specs.Refused.{file_numbers, RefusedAt, RefusedFrom};
ghost use Rattle.p21_parse.specs.Allowed.{own_number_of, IsAllowed, AreAllowed, IsNoName};

use crate::limits::MAX_NESTING;

/// The laws of the grammar (ISO 10303-21, exchange structure, in this profile): symbols spell at most one exchange, and
/// tokens either spell one within the limits or have a refusal, never both and never two. What refusals count in symbols,
/// open parentheses and the numbers of instances, is what stands in the tree. It does nothing.
pub fn grammar_laws()
    ensures one { (x y : ExchangeTree) → spell_file x ≡ spell_file y → x ≡ y }
    ensures nested { (x : ExchangeTree) → IsExchange x → (IsShallow false 0 (spell_file x) ↔ (exchange_nesting x ≤ MAX_NESTING)) }
    ensures numbers { (x : ExchangeTree) → file_numbers (spell_file x) ≡ map own_number_of x.items }
    ensures single { (bytes : List ℕ) (tokens : List Token) (r q : Refusal) → AllByRecursion (IsToken bytes) tokens
        → RefusedAt bytes tokens r → RefusedAt bytes tokens q → r ≡ q }
    ensures allowed { (bytes : List ℕ) (tokens : List Token) (x : ExchangeTree) (r : Refusal) → AllByRecursion (IsToken bytes) tokens
        → IsAllowed x → symbols bytes tokens ≡ spell_file x → RefusedAt bytes tokens r → ⊥ }
    ensures decided { (bytes : List ℕ) (tokens : List Token) → AllByRecursion (IsToken bytes) tokens
        → ((x : ExchangeTree) × IsAllowed x × (symbols bytes tokens ≡ spell_file x)) ⊎ ((r : Refusal) × RefusedAt bytes tokens r) }
{}

/// The same of instances alone, from a token on: up to one that is no name they are given by their symbols, and they
/// either keep the limits or have a refusal, never both and never two. It does nothing.
pub fn instance_laws()
    ensures one { (xs ys : List InstanceTree) (rest more : List Symbol) → IsNoName rest → IsNoName more
        → spell_all spell_instance xs rest ≡ spell_all spell_instance ys more → (xs ≡ ys) × (rest ≡ more) }
    ensures single { (bytes : List ℕ) (tokens : List Token) (at most : ℕ) (r q : Refusal) → AllByRecursion (IsToken bytes) (drop at tokens)
        → RefusedFrom bytes tokens at most r → RefusedFrom bytes tokens at most q → r ≡ q }
    ensures allowed { (bytes : List ℕ) (tokens : List Token) (at most : ℕ) (items : List InstanceTree) (rest : List Symbol) (r : Refusal)
        → AllByRecursion (IsToken bytes) (drop at tokens) → AreAllowed most items
        → symbols bytes (drop at tokens) ≡ spell_all spell_instance items rest → IsNoName rest → RefusedFrom bytes tokens at most r → ⊥ }
    ensures decided { (bytes : List ℕ) (tokens : List Token) (at most : ℕ) → AllByRecursion (IsToken bytes) (drop at tokens)
        → ((items : List InstanceTree) × (rest : List Symbol) × AreAllowed most items
        × (symbols bytes (drop at tokens) ≡ spell_all spell_instance items rest) × IsNoName rest)
        ⊎ ((r : Refusal) × RefusedFrom bytes tokens at most r) }
{}
