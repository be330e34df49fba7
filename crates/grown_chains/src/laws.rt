//! The laws of a folder that grows, each the contract of a function that does nothing.

ghost use Rattle.grown_chains.specs.Grown.{ChildrenOpen, FollowingKeeps, IsTyped, LinksLead, MadeChildrenOpen, MadeDisksOpen, NewDisksOpen, OneWay, OthersOpenStill};

use link_rules::LinkedFile;

/// What is known of a file by the types of its name and its numbers.
pub fn are_types(file: &LinkedFile)
    ensures { IsTyped file.now }
{
    file.name.as_bytes();
    file.name.as_str();
    file.parts.header.data_write.as_bytes();
    file.parts.disk.as_bytes();
}

/// A new disk's file is opened to zeros, and a new child to the disk of what its parent's name leads to.
pub fn new_files_have_disks()
    ensures disks { NewDisksOpen }
    ensures children { ChildrenOpen }
{}

/// Names are opened as before where files are added to a folder, and where a name was followed; a name leads one way.
pub fn folders_keep_disks()
    ensures others { OthersOpenStill }
    ensures followed { FollowingKeeps }
    ensures way { OneWay }
    ensures links { LinksLead }
{}

/// What `make` made is opened so, and all names that were opened before are opened as they were.
pub fn made_files_have_disks()
    ensures disks { MadeDisksOpen }
    ensures children { MadeChildrenOpen }
{}
