//! A caller of the reader as a layer above would be, to see that the clauses are enough for it.

ghost use Rattle.std.specs.Prelude.{◌≡◌, ◌≤◌, ◌<◌, ℕ, List, ◌∷◌, length, drop, Some, Err, IfOk, IfErr, MatchOption};
ghost use Rattle.dev_traits.specs.Faults.{Rose};
ghost use Rattle.ply_text.specs.Pieces.{Piece};
ghost use Rattle.ply_text.specs.BodyTokens.{body_tokens};
ghost use Rattle.ply_text.specs.Calls.{fault_place};

use dev_traits::{ByteSource, MemSource};
use ply_text::{TextFault, Tokens};

/// The size of a text's first token and the place of its second one.
fn first_two<I: ByteSource>(
    input: &mut I,
    block: &mut [u8],
) -> Result<Option<(usize, u64)>, TextFault>
    requires { 2048 ≤ length block.old }
    ensures told { (text : List ℕ) → I.rest input.old ≡ Some text → IfOk result (λ found. MatchOption found (length (body_tokens 0 text) < 2)
        (λ pair. (first : Piece) × (second : Piece) × (rest : List Piece) × (body_tokens 0 text ≡ first ∷ second ∷ rest) × (pair.0 ≡ length first.bytes) × (pair.1 ≡ second.place))) }
    ensures read { (text : List ℕ) → I.rest input.old ≡ Some text → IfErr result (λ fault.
        (count : ℕ) × (fault_place fault ≤ count) × (I.rest input.new ≡ Some (drop count text))) }
    ensures later { I.faults input.old ≤ I.faults input.new }
    ensures cause { result ≡ Err TextFault.ReadFault → Rose (I.faults input.old) (I.faults input.new) }
{
    let mut tokens = Tokens::new(input, block);
    let Some(first) = tokens.next_token()? else {
        return Ok(None);
    };
    let size = first.bytes.len();
    let Some(second) = tokens.next_token()? else {
        return Ok(None);
    };
    Ok(Some((size, second.place)))
}

#[test]
fn a_caller_takes_two_tokens(rt: HostRuntime) {
    let mut block = [0; 2048];
    let mut source = MemSource::new(rt.alloc(), b"one  two", 3, &[]).expect(&rt, "memory");
    assert_eq!(rt;
        first_two(&mut source, &mut block),
        Ok(Some((3, 5))),
        "two tokens"
    );
}
