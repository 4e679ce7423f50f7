// Control blocks (statement.rs): their grammar, and the check of a block.
#![tactic(auto)]

ghost use Rattle.grammar.specs.Promise.{Checked};

use pkg_length::AmlError;

pub mod opcode;
mod read;
mod stop;
mod term;
mod unread;

use unread::Unread;

// How deep statements nest, and terms.
pub const DEPTH: usize = 16;

// Whether a block is well formed: the grammar derives it, within the limits.
pub fn check(block: &[u8]) -> Result<(), AmlError>
    ensures { Checked block.now result }
{
    if 65536 < block.len() {
        return Err(AmlError::BlockTooLong);
    }
    let whole = Unread {
        bytes: block,
        place: 0,
    };
    Ok(whole.term_list(DEPTH)?)
}
