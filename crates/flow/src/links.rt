// Pointers as words: an index and a tag in place of atomic.rs, `Shared`. Null is 0, index i with tag t is 2(i + 1) + t. Each promise
// cites the definition of the same name.
//
// A pointer has no type of its own: no place keeps one as a word (they keep `Ptr`, `Slot` and `Node`), so it would be made of each word that an access saw
// and undone in each that an access stores. An index is asked to be one that a pointer can name by `requires`, and not by a type: `Slot`, `Node`
// and `Ptr` are the definition's, and hold any number.
ghost use Rattle.std.specs.Prelude.{◌≡◌, eqb};
ghost use Rattle.definition.specs.Links.{link, is_null, index, is_tagged, pointee, pointer, node_at};
ghost use Rattle.flow.specs.Words.{IsIndex, PtrFits};

use definition::{Node, Ptr, Slot};

// The null pointer.
pub const NULL: u64 = 0;

// How many indices a pointer can name: the word for the last of them, with its tag, is 2 ^ 64 - 1.
const INDICES: u64 = 0x7fff_ffff_ffff_ffff;

// The word that points to index `i`, not tagged.
#[tactic(auto, unfolding(definition::specs::Links::link))]
pub fn link(i: u64) -> u64
    requires { IsIndex i }
    ensures { result ≡ link i }
{
    2 * (i + 1)
}

// Whether the word is null, whatever its tag.
#[tactic(auto, unfolding(definition::specs::Links::is_null))]
pub fn is_null(w: u64) -> bool
    ensures { result ≡ is_null w }
{
    w / 2 == 0
}

// The index that the word names.
#[tactic(auto, unfolding(definition::specs::Links::index))]
pub fn index(w: u64) -> u64
    ensures { result ≡ index w }
{
    (w / 2).saturating_sub(1)
}

// Whether the word is tagged: an entry so marked is deleted.
#[tactic(auto, unfolding(definition::specs::Links::is_tagged))]
pub fn is_tagged(w: u64) -> bool
    ensures { result ≡ is_tagged w }
{
    w % 2 == 1
}

// The entry that the word points to, without its tag.
#[tactic(auto, unfolding(definition::specs::Base::branch, definition::specs::Links::pointee))]
pub fn pointee(w: u64) -> Ptr
    ensures { result ≡ pointee w }
{
    if is_null(w) {
        Ptr::Null
    } else {
        Ptr::At(Slot(index(w)))
    }
}

// The word that points to the entry, not tagged.
#[tactic(auto, unfolding(definition::specs::Links::null, definition::specs::Links::pointer))]
pub fn pointer(p: Ptr) -> u64
    requires { PtrFits p }
    ensures { result ≡ pointer p }
{
    match p {
        Ptr::Null => NULL,
        Ptr::At(s) => link(s.0),
    }
}

// The node that the word points to.
#[tactic(auto, unfolding(definition::specs::Links::node_at))]
pub fn node_at(w: u64) -> Node
    ensures { result ≡ node_at w }
{
    Node(index(w))
}

// Whether the word points to the node, not tagged. No word points to an index that a pointer cannot name.
#[tactic(auto, unfolding(definition::specs::Links::link))]
pub fn points_to(w: u64, n: Node) -> bool
    ensures { result ≡ eqb w (link n.0) }
{
    n.0 < INDICES && w == link(n.0)
}
