//! The files of a merge.

ghost use Rattle.std.specs.Prelude.{◌≡◌, ◌≤◌, length, IfErr, IfOk};
ghost use Rattle.std.specs.List.{position};
ghost use Rattle.std.specs.Str.{bytes_eq};
ghost use Rattle.merge_plan.specs.Steps.{FindsNone, IsFound};

use crate::refusal::PrepareRefusal;
use link_rules::LinkedFile;
use vx_base::Name;

/// The files of a merge, lent.
#[derive(Clone, Copy)]
pub struct Found<'a> {
    /// The source's place in the chain, counted from the leaf, which has 0.
    pub place: u32,
    /// The file directly above the source.
    pub child: &'a LinkedFile,
    pub source: &'a LinkedFile,
    /// The source's parent.
    pub target: &'a LinkedFile,
}

// The place of the file of this name.
fn place_of(files: &[LinkedFile], name: &Name) -> Option<usize>
    ensures { result ≡ position (λ f. bytes_eq f.name name.now) files.now }
{
    files.iter().position(|file| file.name == *name)
}

/// The files of the merge of the file of this name.
pub fn find<'a>(files: &'a [LinkedFile], name: &Name) -> Result<Found<'a>, PrepareRefusal>
    requires { length files.now ≤ 64 }
    ensures found { IfOk result (IsFound files.now) }
    ensures named { IfOk result (λ found. found.source.now.name ≡ name.now) }
    ensures err { IfErr result (FindsNone files.now name.now) }
{
    let Some(place) = place_of(files, name) else {
        return Err(PrepareRefusal::NotInChain);
    };
    if place + 1 >= files.len() {
        return Err(PrepareRefusal::IsBase);
    }
    if place == 0 {
        return Err(PrepareRefusal::LeafSource);
    }
    Ok(Found {
        place: place as u32,
        child: &files[place - 1],
        source: &files[place],
        target: &files[place + 1],
    })
}
