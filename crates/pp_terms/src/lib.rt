//! The words that the contracts of this repository cite, each in the terms of its standard: a content and its hash
//! tree, books of digests, the store's file and its images, the disk and what a crash may leave, a link's traffic.
//!
//! Its functions do nothing. Their contracts are laws on those words, and worked examples of them.
#![tactic(auto)]

ghost use Rattle.pp_terms.specs.Law.{WriteElsewhereKeeps, SyncLeavesOne, SyncKeeps, FoundIsHeld, HeightIsLeast, PeaksAreTopmost, PeaksOfBooks};
ghost use Rattle.pp_terms.specs.Example.{TreeExamples, StoreExamples};
ghost use Rattle.pp_terms.specs.tree.ClaimExample.{ClaimExamples};
ghost use Rattle.pp_terms.specs.command.ReportExample.{ReportExamples};

/// What a crash may leave after a write and after a sync, and what an opening finds in a sound image.
pub fn laws_of_the_disk()
    ensures write { WriteElsewhereKeeps }
    ensures sync { SyncLeavesOne }
    ensures sync_keeps { SyncKeeps }
    ensures found { FoundIsHeld }
{}

/// How high a tree is, which of its nodes are peaks, and when a book has them all.
pub fn laws_of_the_tree()
    ensures height { HeightIsLeast }
    ensures peaks { PeaksAreTopmost }
    ensures books { PeaksOfBooks }
{}

/// The words at contents that were worked out elsewhere.
pub fn worked_examples()
    ensures tree { TreeExamples }
    ensures store { StoreExamples }
    ensures claims { ClaimExamples }
    ensures report { ReportExamples }
{}
