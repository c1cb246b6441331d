// Bags in the lent lists: the items of crossbeam-epoch's `Bag` and `SealedBag` (src/internal.rs).
//
// A bag holds what waits to be freed. A participant's own bag stands in its row of the list `held`; sealed with an epoch it is moved into
// a node, whose row of `nodes` has the node's next, the seal and the length, and whose row of `queued` has the items. In the Rust an item
// is a closure that is called when the bag is dropped; here it is a word that says what to free: a token, which goes to the caller, or a
// node or a slot, whose index is free again.
#![tactic(auto)]

ghost use Rattle.std.specs.Prelude.{◌≡◌, true, [], ◌∷◌, ◌+◌, ◌*◌, ◌^◌, ◌≤◌, ◌<◌, length, set};
ghost use Rattle.std.proofs.Math.Seq.{paste};
ghost use Rattle.definition.specs.Base.{among};
ghost use Rattle.definition.specs.Bags.{places_left, item_word, item_of, items, tokens};
ghost use Rattle.bits.specs.Bits.{words_at, words_of};
ghost use Rattle.bags.specs.Bags.{stamped, bag_len, bag_items, filled, free_items, have_bits};

use bits::FreeBits;
use definition::{Item, Node, Slot};
use epoch::Epoch;
use flow::Bag;
use flow::links::NULL;
use lent::{BAG_LEN, BAG_WORDS, NODE_WORDS};

// Returns the word that stands for an item; it must be one, and since `From` could not ask that, this and its inverse are functions.
#[tactic(auto, unfolding(definition::specs::Bags::item_word))]
pub fn item_word(item: Item) -> u64
    requires { item_word item < 2 ^ 64 }
    ensures { result ≡ item_word item }
{
    match item {
        Item::Token(v) => 4 * v + 1,
        Item::Node(Node(v)) => 4 * v + 2,
        Item::Slot(Slot(v)) => 4 * v + 3,
    }
}

// Returns the item that a word stands for.
#[tactic(auto, unfolding(definition::specs::Bags::item_of, definition::specs::Base::branch))]
pub fn item_of(w: u64) -> Item
    ensures { result ≡ item_of w }
{
    let v = w / 4;
    match w % 4 {
        1 => Item::Token(v),
        2 => Item::Node(Node(v)),
        _ => Item::Slot(Slot(v)),
    }
}

// Puts an item behind the `k` items of a bag, which has room. Returns the places left after it.
// (The words lent begin with the bag's first. `settle` lends all that follow too, for it is sure of no place behind the item's.)
pub fn put_item(bag: &mut [u64], k: usize, item: Item) -> u64
    requires k_bound { k < 64 }
    requires k_in_bounds { (k < length bag.old) × (item_word item < 2 ^ 64) }
    ensures { (result ≡ places_left (k + 1)) × (bag.new ≡ set bag.old k (item_word item)) }
{
    bag[k] = item_word(item);
    Bag::places_left(k as u64 + 1)
}

// Returns whether one of the items of a bag, lent alone, is this token.
pub fn holds_token(bag: &[u64], token: u64) -> bool
    ensures { result ≡ among token (tokens (items (length bag.now) (words_of bag.now))) }
{
    bag.iter().any(|w| is_token(*w, token))
}

// Returns whether the item that a word stands for is this token. A node or a slot of the same number is none.
#[tactic(auto, using(crate::proofs::Items::token_test, crate::proofs::Items::token_none))]
fn is_token(w: u64, token: u64) -> bool
    ensures { result ≡ among token (tokens (item_of w ∷ [])) }
{
    match item_of(w) {
        Item::Token(t) => token == t,
        _ => false,
    }
}

// Moves a bag, lent alone, into a node and seals it with `e`. The node's next is null.
// (It takes the two lists that it writes, not a `&mut ListsMut`, of which the bag that it reads is a part: the two could not be lent at once. It asks for
// the node's rows by their bounds: of a list whose row was lent by `as_chunks_mut` nothing is known afterwards.)
#[tactic(auto, using(crate::proofs::Nodes::row_stamped))]
pub fn seal_bag(bag: &[u64], nodes: &mut [u64], queued: &mut [u64], node: usize, e: Epoch)
    requires { (node * 3 + 3 ≤ length nodes.old) × (node * 64 + length bag.now ≤ length queued.old) }
    ensures row { nodes.new ≡ stamped nodes.old node e.0 (length bag.now) }
    ensures items { queued.new ≡ paste queued.old (node * 64) bag.now (length bag.now) }
{
    let row = node * NODE_WORDS;
    let at = node * BAG_WORDS;
    queued[at..at + bag.len()].copy_from_slice(bag);
    nodes[row..row + NODE_WORDS].copy_from_slice(&[NULL, e.0, bag.len() as u64]);
}

// Frees every item of a node's bag, first to last, for `n` participants and `m` nodes: a token goes to the next place of `freed`, from its front, and a
// node or a slot is free again. The bag is then empty. Returns the number of tokens.
// (It takes the lists that it touches, not a `&mut ListsMut`: it leaves the other two alone, and by not having them it need not promise that. It asks for
// the node's rows by their bounds, as `seal_bag` does.)
pub fn free_bag(
    globals: &mut [u64],
    n: usize,
    m: usize,
    nodes: &mut [u64],
    queued: &[u64],
    node: usize,
    freed: &mut [u64],
) -> u64
    requires node_in_bounds { (node * 3 + 3 ≤ length nodes.old) × (node * 64 + bag_len nodes.old node ≤ length queued.now) }
    requires room { bag_len nodes.old node ≤ length freed.old }
    requires have_their_bits { have_bits n (length globals.old) (bag_len nodes.old node) (words_at queued.now (node * 64)) ≡ true }
    ensures { (result ≡ length (tokens (bag_items nodes.old queued.now node)))
        × ((globals.new ≡ free_items n (bag_items nodes.old queued.now node) globals.old)
        × ((nodes.new ≡ set nodes.old (node * 3 + 2) 0)
        × (freed.new ≡ filled (tokens (bag_items nodes.old queued.now node)) freed.old))) }
{
    let len_at = node * NODE_WORDS + BAG_LEN;
    let at = node * BAG_WORDS;
    let k = nodes[len_at] as usize;
    // The place is counted by hand. Tried: the next of `freed.iter_mut()` for each token; what is written through it is not known of `freed` at the return.
    let mut t: usize = 0;
    for w in &queued[at..at + k] {
        match item_of(*w) {
            Item::Token(token) => {
                freed[t] = token;
                t += 1;
            }
            Item::Node(Node(i)) => FreeBits::nodes(n, m).give(globals, i as usize),
            Item::Slot(Slot(i)) => FreeBits::slots(n).give(globals, i as usize),
        }
    }
    nodes[len_at] = 0;
    t as u64
}
