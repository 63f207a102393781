//! Words with single spaces between them, or `-` if there is none.
//!
//! A gap is written before each word, and a dash after the last one. So the words can be written as
//! they are found, and need not be collected in a list.
ghost use Rattle.std.specs.Prelude.{◌≡◌, ◌++◌, OnOk, OnErr};
ghost use Rattle.gp_words.specs.Spacing.{gap, dash};

use gp_memory::NoMemory;

/// Appends what comes before a word that has `words` words before it: a space, or nothing if it is
/// the first word. If memory runs out, `to` stays as it was.
pub fn push_gap(words: usize, to: &mut Vec<u8>) -> Result<(), NoMemory>
    ensures written { OnOk result (to.new.items ≡ to.old.items ++ gap words) }
    ensures unchanged { OnErr result (to.new.items ≡ to.old.items) }
{
    if words > 0 {
        to.push(b' ')?;
    }
    Ok(())
}

/// Appends what follows all `words` words: `-` if there is none, and otherwise nothing. If memory
/// runs out, `to` stays as it was.
pub fn push_dash(words: usize, to: &mut Vec<u8>) -> Result<(), NoMemory>
    ensures written { OnOk result (to.new.items ≡ to.old.items ++ dash words) }
    ensures unchanged { OnErr result (to.new.items ≡ to.old.items) }
{
    if words == 0 {
        to.push(b'-')?;
    }
    Ok(())
}
