//! Runs of bytes.

ghost use Rattle.std.specs.Prelude.{◌≡◌};
ghost use Rattle.std.specs.List.{prefix_len};
ghost use Rattle.ply_text.specs.Pieces.{belongs, is_white};

/// What a run is made of: a line's bytes, a token's, or white space.
#[derive(Clone, Copy, Debug, PartialEq, Eq)]
pub enum Run {
    Line,
    Token,
    White,
}

const LINE_FEED: u8 = 10;

/// Tab, LF, VT, FF, CR or space.
fn is_white(byte: u8) -> bool
    ensures { result ≡ is_white byte }
{
    matches!(byte, 9..=13 | 32)
}

/// How many bytes at the front belong to a run.
#[tactic(auto, unfolding(crate::specs::Pieces::belongs))]
pub fn front_size(run: Run, bytes: &[u8]) -> usize
    ensures { result ≡ prefix_len (belongs run) bytes.now }
{
    match run {
        Run::Line => bytes.iter().take_while(|byte| **byte != LINE_FEED).count(),
        Run::Token => bytes.iter().take_while(|byte| !is_white(**byte)).count(),
        Run::White => bytes.iter().take_while(|byte| is_white(**byte)).count(),
    }
}
