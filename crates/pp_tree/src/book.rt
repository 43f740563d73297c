// A book of digests in memory.
ghost use Rattle.std.specs.Prelude.{◌≡◌, ℕ, ◌+◌, ◌-◌, ◌*◌, ◌<◌, ◌≤◌, ◌++◌, Some, None, replicate, length, OnOk, OnErr, IfOk, IfSome, MatchOption};
ghost use Rattle.sha2.specs.Sha256.{sha256};
ghost use Rattle.pp_terms.specs.tree.Book.{IsRooted};
ghost use Rattle.pp_terms.specs.format.Descriptor.{Descriptor};
ghost use Rattle.pp_terms.specs.tree.Book as books;
ghost use Rattle.pp_tree.specs.Book.{empty_book, chunks_in_book, cell_of, entry, IsBookOf, IsPreparedFor, IsInTree, HasRootAlone, IsAdopted, IsEntered};

use crate::descriptor::Descriptor;
use crate::digest::Digest;
use crate::node::Node;
use std::alloc::{AllocError, Global};
use std::marker::Model;

/// A finite map from the nodes of a tree to digests. A node's digest stands in the cell of its bin number
/// (RFC 7574, section 4.2); past the last cell nothing is known.
#[derive(Drop)]
pub struct Book {
    descriptor: Option<Descriptor>,
    cells: Vec<Option<[u8; 32]>>,
}

impl Model for Book {
    ghost use Rattle.pp_tree.specs.Book.{BookState};

    ghost Value = { BookState };

    ghost view = { λ b. record { descriptor = b.descriptor; cells = b.cells.items } };

    ghost use Rattle.pp_tree.specs.Cells.{AreOfTree};

    ghost invariant = { λ b. AreOfTree b.cells.items };
}

impl Book {
    /// A book that knows no node. It takes no memory yet.
    pub fn empty(alloc: Global) -> Book
        ensures cells { result ≡ empty_book }
        ensures absent { (k j : ℕ) → entry result k j ≡ None }
    {
        Book {
            descriptor: None,
            cells: Vec::new(alloc),
        }
    }

    /// Makes room for all nodes of the tree, in an empty book, and enters the root. Where memory is refused the book
    /// stays empty.
    pub fn prepare(&mut self, alloc: Global, descriptor: &Descriptor) -> Result<(), AllocError>
        requires { self.old ≡ empty_book }
        ensures alone { OnOk result (HasRootAlone descriptor.now (entry self.new)) }
        ensures book { OnOk result (IsBookOf descriptor.now self.new) }
        ensures prepared { OnOk result (IsPreparedFor descriptor.now self.new) }
        ensures err { OnErr result (self.new ≡ self.old) }
    {
        let root = descriptor.root();
        let height = descriptor.height();
        let middle = (1 << height) - 1;
        let mut cells = absent_cells(alloc, 2 * middle + 1)?;
        cells[middle] = Some(*root.bytes());
        self.descriptor = Some(*descriptor);
        self.cells = cells;
        Ok(())
    }

    /// Makes room for all nodes of the tree, in an empty book, and enters none. Where memory is refused the book stays
    /// empty.
    pub fn blank(&mut self, alloc: Global, descriptor: &Descriptor) -> Result<(), AllocError>
        requires { self.old ≡ empty_book }
        ensures prepared { OnOk result (IsPreparedFor descriptor.now self.new) }
        ensures absent { OnOk result ((k j : ℕ) → entry self.new k j ≡ None) }
        ensures err { OnErr result (self.new ≡ self.old) }
    {
        let height = descriptor.height();
        let middle = (1 << height) - 1;
        let cells = absent_cells(alloc, 2 * middle + 1)?;
        self.descriptor = Some(*descriptor);
        self.cells = cells;
        Ok(())
    }

    /// Enters a node's digest, whatever was known of the node.
    pub fn set(&mut self, node: Node, digest: &Digest)
        requires { (d : Descriptor) × IsPreparedFor d self.old × IsInTree d node.layer node.offset }
        ensures entered { IsEntered node.layer node.offset digest.now (entry self.old) (entry self.new) }
        ensures descriptor { self.new.descriptor ≡ self.old.descriptor }
        ensures prepared { (d : Descriptor) → IsPreparedFor d self.old → IsPreparedFor d self.new }
    {
        let cell = self.cell(node).unwrap();
        self.cells[cell] = Some(*digest.bytes());
    }

    /// The descriptor that the book was prepared for; none before that.
    pub fn descriptor(&self) -> Option<Descriptor>
        ensures { result ≡ self.now.descriptor }
    {
        self.descriptor
    }

    /// The digest of a node, where the book has it.
    pub fn get(&self, node: Node) -> Option<Digest>
        ensures get { result ≡ entry self.now node.layer node.offset }
        ensures len { IfSome result (λ digest. length digest ≡ 32) }
    {
        let at = self.cell(node)?;
        match self.cells[at] {
            Some(bytes) => Some(Digest::new(bytes)),
            None => None,
        }
    }

    /// Whether the book has all peaks of its content's tree.
    pub fn has_peaks(&self) -> bool
        ensures { result ≡ books.has_peaks (entry self.now) (chunks_in_book self.now) }
    {
        self.has_peaks_below(21, self.chunks())
    }

    // how many chunks the content has; none before the book is prepared
    fn chunks(&self) -> u32
        ensures { result ≡ chunks_in_book self.now }
    {
        match &self.descriptor {
            Some(descriptor) => descriptor.chunks(),
            None => 0,
        }
    }

    // whether it has the peaks of the lowest layers of a tree over so many chunks
    fn has_peaks_below(&self, layers: u8, chunks: u32) -> bool
        requires { layers ≤ 32 }
        ensures { result ≡ books.has_peaks_below (entry self.now) chunks layers }
    {
        for layer in 0..layers {
            let full = chunks >> layer;
            if full % 2 == 1 {
                let offset = full - 1;
                if self.get(Node { layer, offset }).is_none() {
                    return false;
                }
            }
        }
        true
    }

    /// Adds the two children of a node whose digest is that of the pair (RFC 7574, section 5.3).
    pub fn adopt_pair(&mut self, node: Node, left: Digest, right: Digest)
        requires inner { 0 < node.layer }
        requires fits { entry self.old node.layer node.offset ≡ Some (sha256 (left ++ right)) }
        requires left_absent { entry self.old (node.layer - 1) (2 * node.offset) ≡ None }
        requires right_absent { entry self.old (node.layer - 1) (2 * node.offset + 1) ≡ None }
        ensures adopted { IsAdopted (node.layer - 1) node.offset left right (entry self.old) (entry self.new) }
        ensures descriptor { self.new.descriptor ≡ self.old.descriptor }
        ensures rooted { (d : Descriptor) → IsRooted d (entry self.old) → IsRooted d (entry self.new) }
        ensures prepared { (d : Descriptor) → IsPreparedFor d self.old → IsPreparedFor d self.new }
    {
        let at = self.cell(node).unwrap();
        let step = 1 << (node.layer - 1);
        self.cells[at - step] = Some(*left.bytes());
        self.cells[at + step] = Some(*right.bytes());
    }

    // The number of a node's cell, None past the last.
    fn cell(&self, node: Node) -> Option<usize>
        ensures { MatchOption result (length self.now.cells ≤ cell_of node.layer node.offset)
            (λ at. (at ≡ cell_of node.layer node.offset) × (at < length self.now.cells) × (node.layer ≤ 20)) }
    {
        let count = self.cells.len();
        if node.layer > 20 {
            return None;
        }
        let at = ((2 * (node.offset as usize) + 1) << node.layer) - 1;
        if at < count { Some(at) } else { None }
    }
}

fn absent_cells(alloc: Global, len: usize) -> Result<Vec<Option<[u8; 32]>>, AllocError>
    ensures { IfOk result (λ cells. cells.items ≡ replicate len None) }
{
    let mut cells = Vec::with_capacity(alloc, len)?;
    for _ in 0..len {
        cells.push(None)?;
    }
    Ok(cells)
}
