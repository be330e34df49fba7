//! Stripes of which a file has no sector are found by its entries, so that a merge passes over them.

ghost use Rattle.std.specs.Prelude.{◌≡◌, ◌+◌, ◌^◌, ◌<◌, ◌≤◌, IfOk, IfErr, OnOk};
ghost use Rattle.store_model.specs.Disk.{ReadFailed, WhereTold};
ghost use Rattle.chain_model.specs.Layers as chain;
ghost use Rattle.chain_model.specs.Merges.{LacksStripes};
ghost use Rattle.chain_model.specs.Stripes as stripes;
ghost use Rattle.layer_session.specs.Absent.{tables_of};
ghost use Rattle.layer_session.specs.Calls.{IsSame, own_file};
ghost use Rattle.layer_session.specs.FileLayers.{Holds, IsReadableFile, IsSameFile, number_of};
ghost use Rattle.layer_session.specs.declared.file_layer.FileLayer.TheVariants as kind;
ghost use Rattle.merge_core.specs.Passing.{PassesStripes};

use crate::stripes::{stripe_range, whole_stripes};
use layer_session::{FileLayer, Layer};
use store_model::{Store, StoreFault};
use vx_base::Geometry;

/// How many stripes from this one on a file has no sector of, as far as one look at its entries tells.
pub fn pass<S: Store>(
    store: &mut S,
    source: &mut FileLayer,
    geometry: Geometry,
    from: u32,
) -> Result<u32, StoreFault>
    requires readable { IsReadableFile geometry (S.disk store.old) source.old }
    requires stripe { from < stripes.stripe_count geometry.sector geometry.sectors }
    ensures there { IfOk result (λ n. from + n ≤ stripes.stripe_count geometry.sector geometry.sectors) }
    ensures few { IfOk result (λ n. from + n ≤ 2 ^ 26) }
    ensures passes { IfOk result (λ n. PassesStripes (tables_of source.old) (S.disk store.old) geometry from n) }
    ensures none { IfOk result (λ n. (layer : chain.Layer) →
        WhereTold (S.disk store.old).told (λ trace. Holds source.old trace layer → LacksStripes geometry.sector from n layer)) }
    ensures same { IsSameFile source.old source.new (S.disk store.old) }
    ensures stays { OnOk result (S.disk store.new ≡ S.disk store.old) }
    ensures err { IfErr result (ReadFailed (number_of source.old) (S.disk store.old) (S.disk store.new)) }
{
    let (first, _) = stripe_range(from, geometry);
    let count = source.absent(store, first, geometry.sectors - first)?;
    Ok(whole_stripes(from, count, geometry))
}

/// The same of a file that is in a session.
pub fn pass_own<S: Store>(
    store: &mut S,
    source: &mut Layer,
    geometry: Geometry,
    from: u32,
) -> Result<u32, StoreFault>
    requires readable { IsReadableFile geometry (S.disk store.old) (kind.Session source.old) }
    requires stripe { from < stripes.stripe_count geometry.sector geometry.sectors }
    ensures there { IfOk result (λ n. from + n ≤ stripes.stripe_count geometry.sector geometry.sectors) }
    ensures few { IfOk result (λ n. from + n ≤ 2 ^ 26) }
    ensures passes { IfOk result (λ n. PassesStripes source.old.tables (S.disk store.old) geometry from n) }
    ensures none { IfOk result (λ n. (layer : chain.Layer) →
        WhereTold (S.disk store.old).told (λ trace. Holds (kind.Session source.old) trace layer → LacksStripes geometry.sector from n layer)) }
    ensures same { IsSame source.old source.new (S.disk store.old) }
    ensures stays { OnOk result (S.disk store.new ≡ S.disk store.old) }
    ensures err { IfErr result (ReadFailed (own_file source.old) (S.disk store.old) (S.disk store.new)) }
{
    let (first, _) = stripe_range(from, geometry);
    let count = source.absent(store, first, geometry.sectors - first)?;
    Ok(whole_stripes(from, count, geometry))
}
