// The words in which the definition of the stepped reclaimer is written, and in which its code is written too: indices, pointers,
// places and what each carries, accesses, answers. Types, and the conversions between them. What they mean is defined in specs/, from
// crossbeam-epoch 0.9.21.
#![tactic(auto)]

ghost use Rattle.std.specs.Prelude.{◌≡◌};
ghost use Rattle.definition.specs.Codec.{owner_number, owner_of};
ghost use Rattle.definition.specs.Preds.{ptr_of_pred, pred_of_ptr};

use epoch::Epoch;

// A participant's index in its table: the Rust's `*const Local`.
#[derive(Clone, Copy)]
pub struct Slot(pub u64);

// A queue node's index in its table: the Rust's `*const Node<SealedBag>`.
#[derive(Clone, Copy)]
pub struct Node(pub u64);

// list.rs, `Shared<Entry>` without its tag. No `Option<Slot>`: the rules of specs/List and Step and all that is proved of runs go by its cases.
#[derive(Clone, Copy)]
pub enum Ptr {
    Null,
    At(Slot),
}

// list.rs, `Iter::pred`: the link by which the iteration came to its current entry. No `Option<Slot>`: the head is a link as well.
#[derive(Clone, Copy)]
pub enum Pred {
    Head,
    Entry(Slot),
}

// A predecessor as a pointer, the head as null: how it stands in a table.
impl From<Pred> for Ptr {
    ghost from_gives = { λ q r. r ≡ ptr_of_pred q };

    fn from(q: Pred) -> Ptr {
        match q {
            Pred::Head => Ptr::Null,
            Pred::Entry(s) => Ptr::At(s),
        }
    }
}

impl From<Ptr> for Pred {
    ghost from_gives = { λ q r. r ≡ pred_of_ptr q };

    fn from(q: Ptr) -> Pred {
        match q {
            Ptr::Null => Pred::Head,
            Ptr::At(s) => Pred::Entry(s),
        }
    }
}

// list.rs, `Iter`: where an iteration stands.
#[derive(Clone, Copy)]
pub struct Cursor {
    pub pred: Pred,
    pub curr: Slot,
}

// deferred.rs, `Deferred`: what waits in a bag. A token stands for a closure; a node or a slot for the closure of `defer_destroy`.
#[derive(Clone, Copy)]
pub enum Item {
    Token(u64),
    Node(Node),
    Slot(Slot),
}

// Whose `Global::collect` runs: internal.rs, `Local::pin`, `Local::flush`, or the `pin` inside `Local::finalize`.
#[derive(Clone, Copy)]
pub enum Owner {
    Pin = 0,
    Flush = 1,
    Finalize = 2,
}

// An owner's number in a table.
#[tactic(auto, unfolding(crate::specs::Codec::owner_number))]
impl From<Owner> for u64 {
    ghost from_gives = { λ k n. n ≡ owner_number k };

    fn from(k: Owner) -> u64 {
        k as u64
    }
}

// And back: any number says an owner, as in specs/Codec, so this is no `TryFrom`.
#[tactic(auto, unfolding(crate::specs::Codec::owner_of, crate::specs::Base::branch))]
impl From<u64> for Owner {
    ghost from_gives = { λ n k. k ≡ owner_of n };

    fn from(n: u64) -> Owner {
        match n {
            0 => Owner::Pin,
            1 => Owner::Flush,
            _ => Owner::Finalize,
        }
    }
}

// internal.rs, `Global::try_advance`: whose it is, and the epoch that it loaded.
#[derive(Clone, Copy)]
pub struct Try {
    pub owner: Owner,
    pub epoch: Epoch,
}

// internal.rs, `Global::collect`, its loop: whose it is, the epoch by which bags expire, and the pops left, this one included. (No `Try` inside: its epoch is
// another, and the definition's rules go by the three fields.)
#[derive(Clone, Copy)]
pub struct Pops {
    pub owner: Owner,
    pub epoch: Epoch,
    pub left: u64,
}

// Whose `Local::defer` runs, with what its caller holds: a token's; the destruction of a slot that an iteration unlinked; that of the
// old head of a pop, whose popped bag is in the other node. The item that waits is the token, the slot or the old head.
#[derive(Clone, Copy)]
pub enum Deferring {
    Token(u64),
    Slot(Try, Cursor, Ptr),
    Node(Pops, Node, Node),
}

// Whose `Global::push_bag` runs.
#[derive(Clone, Copy)]
pub enum Then {
    Defer(Deferring),
    Flush,
    Finalize,
}

// list.rs, `List::insert`; carried: `next`.
#[derive(Clone, Copy)]
pub enum RegisterAt {
    Head,
    Next(Ptr),
    Link(Ptr),
}

// internal.rs, `Local::repin`; carried: `epoch`, then `global_epoch`.
#[derive(Clone, Copy)]
pub enum RepinAt {
    Word,
    Epoch(Epoch),
    Store(Epoch),
}

// list.rs, `List::iter` and `Iter::next`; carried: the iteration, and `succ`.
#[derive(Clone, Copy)]
pub enum WalkAt {
    Head,
    Next(Cursor),
    Unlink(Cursor, Ptr),
    Stalled,
}

// queue.rs, `Queue::pop_if_internal`; carried: `head`, `next`.
#[derive(Clone, Copy)]
pub enum PopAt {
    Head,
    Next(Node),
    Exchange(Node, Node),
    Tail(Node, Node),
    TailMove(Node, Node),
}

// internal.rs, `Global::push_bag`, then queue.rs, `Queue::push` and `push_internal`; carried: `new`, `onto`, `next`.
#[derive(Clone, Copy)]
pub enum PushAt {
    Epoch,
    Tail(Node),
    Next(Node, Node),
    Help(Node, Node, Node),
    Link(Node, Node),
    Move(Node, Node),
}

// Where a participant stands: the access that its next step makes, with what the Rust holds in locals there.
#[derive(Clone, Copy)]
pub enum Place {
    Rest,
    Register(RegisterAt),
    PinEpoch(Owner),
    PinWord(Owner, Epoch),
    Repin(RepinAt),
    UnpinWord,
    AdvanceEpoch(Owner),
    Walk(Try, WalkAt),
    AdvanceWord(Try, Slot, Ptr),
    AdvanceStore(Try),
    Pop(Pops, PopAt),
    Push(Then, PushAt),
    FinalWord,
    FinalTag,
}

// internal.rs, the `Cell`s of `Local`.
#[derive(Clone, Copy)]
pub struct Counts {
    pub guards: u64,
    pub handles: u64,
    pub pins: u64,
}

// What a participant alone reads and writes: its counts, the length of its bag, the nodes set aside for its operation, its place.
#[derive(Clone, Copy)]
pub struct Participant {
    pub counts: Counts,
    pub held: u64,
    pub share: u64,
    pub place: Place,
}

// A place as it stands in a table: its number, and what it carries, one meaning to a column; zero where it carries nothing. Words, no enums:
// anything may stand in a table that is lent, and refusal 1 is about what should not (`code_in` of specs/Ranges).
#[derive(Clone, Copy, PartialEq, Eq)]
pub struct Code {
    pub number: u64,
    pub then: u64,
    pub owner: u64,
    pub epoch: u64,
    pub left: u64,
    pub pred: u64,
    pub curr: u64,
    pub succ: u64,
    pub old: u64,
    pub popped: u64,
    pub new: u64,
    pub onto: u64,
    pub next: u64,
    pub token: u64,
}

// A participant as it stands in its table, beside its two shared words. A type of its own beside `Participant`: specs/Codec goes from the one to the
// other, and the laws of tables and of places are each about one of the two.
#[derive(Clone, Copy)]
pub struct Record {
    pub counts: Counts,
    pub held: u64,
    pub share: u64,
    pub code: Code,
}

// The shared words: all that an access can touch.
#[derive(Clone, Copy)]
pub enum Word {
    GlobalEpoch,
    ListHead,
    EntryNext(Slot),
    ParticipantWord(Slot),
    QueueHead,
    QueueTail,
    NodeNext(Node),
}

// What a place asks of shared memory: a load; a store of a value; an exchange of an expected value for a new one; the same by
// `compare_exchange_weak`; a `fetch_or` of the tag.
#[derive(Clone, Copy)]
pub enum Ask {
    Load(Word),
    Store(Word, u64),
    Exchange(Word, u64, u64),
    ExchangeWeak(Word, u64, u64),
    FetchOr(Word),
}

// What comes back: the value read (0 for a store), and whether an exchange was done (true for the rest). No `Result`: a lost exchange has its
// value as one that is done has, and most rules read it without asking (`follows` of specs/Rule).
#[derive(Clone, Copy)]
pub struct Seen {
    pub value: u64,
    pub won: bool,
}

// The kinds of access, as a step made it.
#[derive(Clone, Copy)]
pub enum Kind {
    Load,
    Store,
    ExchangeDone,
    ExchangeFailed,
    FetchOr,
}

// The access of a step: what it was, on which word, what it read and what it stored (0 where it did not). No `Option` in its kinds: document 02's
// No. 1 records what was read and stored as words, and says that unused ones are 0.
#[derive(Clone, Copy)]
pub struct Access {
    pub kind: Kind,
    pub word: Word,
    pub read: u64,
    pub stored: u64,
}

// Private work after an access, outside the participant's own record.
#[derive(Clone, Copy)]
pub enum Work {
    Nothing,
    Put(Item),
    PutThenFree(Item, Node),
    Seal(Node, Epoch),
}

// Whether an operation goes on, or ends with a value. No `Option`: what goes on lacks nothing, and `answer_of` of specs/Step goes by the cases.
#[derive(Clone, Copy)]
pub enum End {
    GoesOn,
    EndsWith(u64),
}

// What follows an access, or a call: the participant, the work, and whether the operation ends.
#[derive(Clone, Copy)]
pub struct After {
    pub participant: Participant,
    pub work: Work,
    pub end: End,
}

// The calls that name a participant.
#[derive(Clone, Copy)]
pub enum Call {
    Acquire,
    Release,
    Pin,
    Unpin,
    Repin,
    Defer(u64),
    Flush,
}

// What a call or a step says back: done with a value (the slot for register; for a defer the places left in its participant's bag, document 02,
// No. 9; else 0), or more, each with the number of tokens freed; or a refusal.
// A refusal is document 01's number, as the definition's `refusal` gives it (specs/Public); crate `refusals` has its name.
#[derive(Clone, Copy)]
pub enum Answer {
    Done(u64, u64),
    More(u64),
    Refused(u64),
}

// One participant in a survey. Its state is document 01's number, no enum: the list of reports is the caller's, in C too, where any word may stand.
#[derive(Clone, Copy, Default)]
pub struct Report {
    pub state: u64,
    pub guards: u64,
    pub handles: u64,
    pub held: u64,
    pub distance: i64,
}
