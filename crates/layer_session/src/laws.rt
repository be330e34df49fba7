//! What is known of a file that a layer serves. The functions do nothing; each carries a law.

ghost use Rattle.layer_session.specs.Updating.{PagesTurn};
ghost use Rattle.layer_session.specs.Laws.{CommitsAreServed, LayersAreAdded, LayersAreKept, LayersStand, PlacesAreTaken, TakenIsServed, WritesAreServed};

/// Whatever a crash leaves of a file that a layer serves is opened to the layer outside the loose sectors.
pub fn layers_are_kept()
    ensures { LayersAreKept }
{}

/// What a layer serves hangs on its own file and on the files' names alone, and more of it may be taken as loose.
pub fn layers_stand()
    ensures { LayersStand }
{}

/// A write of sectors to their places in a block that the file has, as held, is served: at each moment images show the file
/// with no more loose than before but those sectors.
pub fn writes_are_served()
    ensures { WritesAreServed }
{}

/// Pages by which a file's metadata are read otherwise turn what a layer serves; and its metadata are read, and say what ties it.
pub fn pages_turn()
    ensures { PagesTurn }
{}

/// While pages are committed an image shows the file as before.
pub fn commits_are_served()
    ensures { CommitsAreServed }
{}

/// While a place is taken for a block, each image shows the file as before, and no more of it loose.
pub fn places_are_taken()
    ensures images { PlacesAreTaken }
    ensures behind { TakenIsServed }
{}

/// Layers that are read one after the other, the upper one first, are read as one on top of the other; and where no sector was
/// found before, mask and bytes tell what is read.
pub fn layers_are_added()
    ensures { LayersAreAdded }
{}
