//! Readers of sealed files are given back to the host.

ghost use Rattle.std.specs.Prelude.{◌≡◌, [], map, true};
ghost use Rattle.serve_session.specs.Back.{any_failed};
ghost use Rattle.read_plan.specs.Reading.{has_failed};
ghost use Rattle.store_model.specs.Folder.{RoseWhere};

use read_plan::ReaderSet;
use sealed_file::SealedFile;
use store_model::{Host, Store};

// Gives back the readers of these files, the last one first.
fn give_back_files<H: Host>(host: &mut H, files: &mut Vec<SealedFile<<H::S as Store>::R>>)
    ensures folder { (H.hosted host.new).folder ≡ (H.hosted host.old).folder }
    ensures past { (H.hosted host.new).past ≡ (H.hosted host.old).past }
    ensures count { RoseWhere (has_failed (map (λ f. H.S.R.sealed f.reader) files.old.items) ≡ true) (H.hosted host.old).faults (H.hosted host.new).faults }
    ensures none { files.new.items ≡ [] }
{
    while let Some(file) = files.pop() {
        host.give_back_reader(file.into_reader());
    }
}

// Gives back a set of readers.
fn give_back_set<H: Host>(host: &mut H, set: ReaderSet<<H::S as Store>::R>)
    ensures folder { (H.hosted host.new).folder ≡ (H.hosted host.old).folder }
    ensures past { (H.hosted host.new).past ≡ (H.hosted host.old).past }
    ensures count { RoseWhere (has_failed set ≡ true) (H.hosted host.old).faults (H.hosted host.new).faults }
{
    let mut files = set.into_files();
    give_back_files(host, &mut files);
    files.destroy_empty();
}

// The same of each of some sets, the last one first.
fn give_back_each<H: Host>(host: &mut H, sets: &mut Vec<ReaderSet<<H::S as Store>::R>>)
    ensures folder { (H.hosted host.new).folder ≡ (H.hosted host.old).folder }
    ensures past { (H.hosted host.new).past ≡ (H.hosted host.old).past }
    ensures count { RoseWhere (any_failed sets.old.items ≡ true) (H.hosted host.old).faults (H.hosted host.new).faults }
    ensures none { sets.new.items ≡ [] }
{
    while let Some(set) = sets.pop() {
        give_back_set(host, set);
    }
}

/// Gives back sets of readers. The host's count rises exactly where one of them has failed.
pub fn give_back_sets<H: Host>(host: &mut H, sets: Vec<ReaderSet<<H::S as Store>::R>>)
    ensures folder { (H.hosted host.new).folder ≡ (H.hosted host.old).folder }
    ensures past { (H.hosted host.new).past ≡ (H.hosted host.old).past }
    ensures count { RoseWhere (any_failed sets.items ≡ true) (H.hosted host.old).faults (H.hosted host.new).faults }
{
    let mut sets = sets;
    give_back_each(host, &mut sets);
    sets.destroy_empty();
}
