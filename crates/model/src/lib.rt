// Items, rights, depths, shifts and sets of items, the commands that carry them, and the one table of refusals.

#![tactic(auto)]

ghost use Rattle.std.specs.Prelude.{◌≡◌, cond, ◌&&◌};
ghost use Rattle.model.specs.Commands.{items, right_depth, shifts, arguments, arguments_of, is_sweep, is_empty, fits, typed_of, within_of, raw_of, question_of, item_of, right_of, depth_of, shift_of};
ghost use Rattle.model.specs.Answers.{refusal_number, number_of, answer_for, flat, knows, table};

// Four kinds of number and not one generic type: a right is no depth, though both are 0 to 7. `read` says no more than that a number is
// within its range, so it gives an Option and is no TryFrom; `number` is the field. No kind has an invariant: public functions say what
// they do with any number of it (`layouts::live::is_live`, `delegation::loan::word`).

// An item number, 0 to 63.
#[derive(Clone, Copy, PartialEq, Eq, PartialOrd, Ord)]
pub struct Item(u32);

// A right number, 0 to 7.
#[derive(Clone, Copy, PartialEq, Eq, PartialOrd, Ord)]
pub struct Right(u32);

// A depth, 0 to 7.
#[derive(Clone, Copy, PartialEq, Eq, PartialOrd, Ord)]
pub struct Depth(u32);

// A shift, 0 to 255. As the last shift of a loan, 0 says that the loan is open-ended.
#[derive(Clone, Copy, PartialEq, Eq, PartialOrd, Ord)]
pub struct Shift(u32);

// A set of items, bit i for item i. Every number of 64 bits is one.
#[derive(Clone, Copy)]
pub struct ItemSet(u64);

impl Item {
    pub const MAX: u32 = 63;

    // The range check of one number.
    pub fn read(n: u32) -> Option<Item>
        ensures { result ≡ item_of n }
    {
        (n <= Item::MAX).then_some(Item(n))
    }

    // Item 0 (document 01's 'the house').
    pub fn root() -> Item
        ensures { result.0 ≡ 0 }
    {
        Item(0)
    }

    pub fn number(self) -> u32
        ensures { result ≡ self.0 }
    {
        self.0
    }
}

impl Right {
    pub const MAX: u32 = 7;

    // The range check of one number.
    pub fn read(n: u32) -> Option<Right>
        ensures { result ≡ right_of n }
    {
        (n <= Right::MAX).then_some(Right(n))
    }

    // The right to edit an item's grants.
    pub fn edit() -> Right
        ensures { result.0 ≡ 0 }
    {
        Right(0)
    }

    pub fn number(self) -> u32
        ensures { result ≡ self.0 }
    {
        self.0
    }
}

impl Depth {
    pub const MAX: u32 = 7;

    // The range check of one number.
    pub fn read(n: u32) -> Option<Depth>
        ensures { result ≡ depth_of n }
    {
        (n <= Depth::MAX).then_some(Depth(n))
    }

    // The depth of a grant that no loan may stand on.
    pub fn zero() -> Depth
        ensures { result.0 ≡ 0 }
    {
        Depth(0)
    }

    pub fn number(self) -> u32
        ensures { result ≡ self.0 }
    {
        self.0
    }
}

impl Shift {
    pub const MAX: u32 = 255;

    // The range check of one number.
    pub fn read(n: u32) -> Option<Shift>
        ensures { result ≡ shift_of n }
    {
        (n <= Shift::MAX).then_some(Shift(n))
    }

    // The shift of a fresh unit.
    pub fn first() -> Shift
        ensures { result.0 ≡ 0 }
    {
        Shift(0)
    }

    pub fn number(self) -> u32
        ensures { result ≡ self.0 }
    {
        self.0
    }
}

impl ItemSet {
    pub fn is_empty(self) -> bool
        ensures { result ≡ is_empty self.0 }
    {
        self.0 == 0
    }

    pub fn number(self) -> u64
        ensures { result ≡ self.0 }
    {
        self.0
    }
}

// A command with the numbers that arrived.
#[derive(Clone, Copy)]
pub enum Command {
    Create {
        by: u32,
        on: u32,
    },
    Delete {
        by: u32,
        on: u32,
    },
    Allow {
        by: u32,
        to: u32,
        on: u32,
        right: u32,
        depth: u32,
    },
    Withdraw {
        by: u32,
        to: u32,
        on: u32,
        right: u32,
    },
    Lend {
        by: u32,
        to: u32,
        on: u32,
        right: u32,
        depth: u32,
        last: u32,
    },
    Recall {
        by: u32,
        to: u32,
        on: u32,
        right: u32,
        depth: u32,
        last: u32,
    },
    Shift {
        by: u32,
        now: u32,
    },
    AllowSet {
        by: u32,
        set: u64,
        on: u32,
        right: u32,
        depth: u32,
    },
    Drop {
        by: u32,
        to: u32,
        on: u32,
        right: u32,
        depth: u32,
    },
    Sweep {
        by: u32,
    },
}

// What a command says to do.
#[derive(Clone, Copy)]
pub enum Verb {
    Create,
    Delete,
    Allow,
    Withdraw,
    Lend,
    Recall,
    Shift,
    AllowSet,
    Drop,
    Sweep,
}

// What a command changes in lists, rows and the grants of a chain unit alike.
#[derive(Clone, Copy)]
pub enum Edit {
    Create,
    Delete,
    Allow,
    Withdraw,
    AllowSet,
}

// The items that a command names.
#[derive(Clone, Copy)]
struct Items {
    by: u32,
    to: u32,
    on: u32,
}

// The right and the depth that it names.
#[derive(Clone, Copy)]
struct RightDepth {
    right: u32,
    depth: u32,
}

// Any command's arguments. The shift is the last one of a loan, or the one that begins.
#[derive(Clone, Copy)]
pub struct Arguments {
    pub verb: Verb,
    pub edit: Option<Edit>,
    pub by: u32,
    pub to: u32,
    pub on: u32,
    pub right: u32,
    pub depth: u32,
    pub shift: u32,
    pub set: u64,
}

// The same, each number within its range. A type of its own: with the kinds as parameters it would name nine of them.
#[derive(Clone, Copy)]
pub struct Typed {
    pub verb: Verb,
    pub edit: Option<Edit>,
    pub by: Item,
    pub to: Item,
    pub on: Item,
    pub right: Right,
    pub depth: Depth,
    pub shift: Shift,
    pub set: ItemSet,
}

// What the table asks of a state for one command: whether by, on and to live, every member of the set lives, by edits on, the shift
// goes back while a loan has a last one, the loan is past its last shift, and loans are full.
#[derive(Clone, Copy)]
pub struct Facts {
    pub by: bool,
    pub on: bool,
    pub to: bool,
    pub members: bool,
    pub edits: bool,
    pub back: bool,
    pub past: bool,
    pub full: bool,
}

// What a command, a check or another call is refused for, with its number.
#[derive(Clone, Copy, PartialEq, Eq)]
pub enum Refusal {
    WrongLength = 1,
    NotInOrder = 2,
    OutOfRange = 3,
    ByDead = 4,
    NamedDead = 5,
    AlreadyLive = 6,
    RootItem = 7,
    NoEdit = 8,
    EditRight = 9,
    Full = 10,
    Malformed = 11,
    ShiftBack = 12,
    LastPast = 13,
    EmptySet = 14,
    TicketsFull = 15,
    NumbersSpent = 16,
    NoTicket = 17,
}

impl Refusal {
    pub fn number(self) -> u32
        ensures { result ≡ refusal_number self }
    {
        self as u32
    }
}

// The number of any answer: 0 for done.
pub fn number<T: Copy>(answer: Result<T, Refusal>) -> u32
    ensures { result ≡ number_of answer }
{
    match answer {
        Ok(_) => 0,
        Err(refusal) => refusal.number(),
    }
}

// What the check of a chain unit finds: the depth of the best chain, and the number of its persons.
#[derive(Clone, Copy)]
pub struct BestChain {
    pub depth: Depth,
    pub persons: u32,
}

// The arguments of a check, each within its range.
#[derive(Clone, Copy)]
pub struct Question {
    pub who: Item,
    pub on: Item,
    pub right: Right,
}

impl Question {
    pub fn read(who: u32, on: u32, right: u32) -> Option<Question>
        ensures { result ≡ question_of who on right }
    {
        (are_items(who, on) && are_right_depth(right, 0)).then_some(Question {
            who: Item(who),
            on: Item(on),
            right: Right(right),
        })
    }
}

fn are_items(i: u32, k: u32) -> bool
    ensures { result ≡ items i k }
{
    i <= Item::MAX && k <= Item::MAX
}

fn are_right_depth(r: u32, d: u32) -> bool
    ensures { result ≡ right_depth r d }
{
    r <= Right::MAX && d <= Depth::MAX
}

fn is_shift(n: u32) -> bool
    ensures { result ≡ shifts n }
{
    n <= Shift::MAX
}

impl Verb {
    // Whether the table has that refusal for it, from number 5 on. Inlined, as `row` and `refuse` are: every command
    // reads the table, and by calls it takes five times as long.
    #[inline(always)]
    fn knows(self, refusal: Refusal) -> bool
        ensures { result ≡ knows self (refusal_number refusal) }
    {
        match self {
            Verb::Create => matches!(refusal, Refusal::AlreadyLive),
            Verb::Delete => matches!(
                refusal,
                Refusal::NamedDead | Refusal::RootItem | Refusal::NoEdit
            ),
            Verb::Allow => matches!(refusal, Refusal::NamedDead | Refusal::NoEdit),
            Verb::Withdraw => matches!(refusal, Refusal::NamedDead | Refusal::NoEdit),
            Verb::Lend => matches!(
                refusal,
                Refusal::NamedDead | Refusal::EditRight | Refusal::LastPast | Refusal::Full
            ),
            Verb::Recall => matches!(refusal, Refusal::NamedDead),
            Verb::Shift => matches!(refusal, Refusal::NoEdit | Refusal::ShiftBack),
            Verb::AllowSet => matches!(
                refusal,
                Refusal::EmptySet | Refusal::NamedDead | Refusal::NoEdit
            ),
            Verb::Drop => matches!(refusal, Refusal::NamedDead | Refusal::NoEdit),
            Verb::Sweep => false,
        }
    }

    // A row of the table: the refusal of a command that knows it, where the state gives reason for it.
    #[inline(always)]
    fn row(self, reason: bool, refusal: Refusal) -> Result<(), Refusal>
        ensures { result ≡ cond (knows self (refusal_number refusal) && reason) (Err refusal) (Ok tt) }
    {
        refuse(self.knows(refusal) & reason, refusal)
    }
}

impl Arguments {
    fn fits(self) -> bool
        ensures { result ≡ fits self }
    {
        are_items(self.by, self.to)
            & are_items(self.to, self.on)
            & are_right_depth(self.right, self.depth)
            & is_shift(self.shift)
    }

    // Only after the range check.
    fn typed(self) -> Typed
        ensures { result ≡ typed_of self }
    {
        let verb = self.verb;
        let edit = self.edit;
        Typed {
            verb,
            edit,
            by: Item(self.by),
            to: Item(self.to),
            on: Item(self.on),
            right: Right(self.right),
            depth: Depth(self.depth),
            shift: Shift(self.shift),
            set: ItemSet(self.set),
        }
    }
}

impl Command {
    // The items that it names. One without a to names on alone, shift is about item 0, and sweep names by alone.
    fn items(self) -> Items
        ensures { (result.by ≡ (arguments_of self).by) × (result.to ≡ (arguments_of self).to) × (result.on ≡ (arguments_of self).on) }
    {
        match self {
            Command::Create { by, on } => Items { by, to: on, on },
            Command::Delete { by, on } => Items { by, to: on, on },
            Command::Allow { by, to, on, .. } => Items { by, to, on },
            Command::Withdraw { by, to, on, .. } => Items { by, to, on },
            Command::Lend { by, to, on, .. } => Items { by, to, on },
            Command::Recall { by, to, on, .. } => Items { by, to, on },
            Command::Shift { by, .. } => Items { by, to: 0, on: 0 },
            Command::AllowSet { by, on, .. } => Items { by, to: on, on },
            Command::Drop { by, to, on, .. } => Items { by, to, on },
            Command::Sweep { by } => Items { by, to: 0, on: 0 },
        }
    }

    // The right and the depth that it names; 0 where it names none.
    fn right_depth(self) -> RightDepth
        ensures { (result.right ≡ (arguments_of self).right) × (result.depth ≡ (arguments_of self).depth) }
    {
        match self {
            Command::Create { .. } => RightDepth { right: 0, depth: 0 },
            Command::Delete { .. } => RightDepth { right: 0, depth: 0 },
            Command::Allow { right, depth, .. } => RightDepth { right, depth },
            Command::Withdraw { right, .. } => RightDepth { right, depth: 0 },
            Command::Lend { right, depth, .. } => RightDepth { right, depth },
            Command::Recall { right, depth, .. } => RightDepth { right, depth },
            Command::Shift { .. } => RightDepth { right: 0, depth: 0 },
            Command::AllowSet { right, depth, .. } => RightDepth { right, depth },
            Command::Drop { right, depth, .. } => RightDepth { right, depth },
            Command::Sweep { .. } => RightDepth { right: 0, depth: 0 },
        }
    }

    // All of these, and what the command has beside them.
    fn arguments_with(self, verb: Verb, edit: Option<Edit>, shift: u32, set: u64) -> Arguments
        ensures { result ≡ arguments verb edit (arguments_of self).by (arguments_of self).to (arguments_of self).on
            (arguments_of self).right (arguments_of self).depth shift set }
    {
        let items = self.items();
        let named = self.right_depth();
        Arguments {
            verb,
            edit,
            by: items.by,
            to: items.to,
            on: items.on,
            right: named.right,
            depth: named.depth,
            shift,
            set,
        }
    }

    // One without a shift or a set has 0 there.
    pub fn arguments(self) -> Arguments
        ensures { result ≡ arguments_of self }
    {
        match self {
            Command::Create { .. } => self.arguments_with(Verb::Create, Some(Edit::Create), 0, 0),
            Command::Delete { .. } => self.arguments_with(Verb::Delete, Some(Edit::Delete), 0, 0),
            Command::Allow { .. } => self.arguments_with(Verb::Allow, Some(Edit::Allow), 0, 0),
            Command::Withdraw { .. } => self.arguments_with(
                Verb::Withdraw,
                Some(Edit::Withdraw),
                0,
                0,
            ),
            Command::Lend { last, .. } => self.arguments_with(Verb::Lend, None, last, 0),
            Command::Recall { last, .. } => self.arguments_with(Verb::Recall, None, last, 0),
            Command::Shift { now, .. } => self.arguments_with(Verb::Shift, None, now, 0),
            Command::AllowSet { set, .. } => self.arguments_with(
                Verb::AllowSet,
                Some(Edit::AllowSet),
                0,
                set,
            ),
            Command::Drop { .. } => self.arguments_with(Verb::Drop, None, 0, 0),
            Command::Sweep { .. } => self.arguments_with(Verb::Sweep, None, 0, 0),
        }
    }

    // Whether lists and rows have the command.
    pub fn is_flat(self) -> bool
        ensures { result ≡ flat self }
    {
        self.arguments().edit.is_some()
    }

    // Whether it is the command that counts.
    pub fn is_sweep(self) -> bool
        ensures { result ≡ is_sweep self }
    {
        matches!(self, Command::Sweep { .. })
    }

    // Number 3.
    pub fn within(self) -> Option<Typed>
        ensures { result ≡ within_of (arguments_of self) }
    {
        let a = self.arguments();
        a.fits().then_some(a.typed())
    }
}

// A refusal where it applies.
#[inline(always)]
fn refuse(applies: bool, refusal: Refusal) -> Result<(), Refusal>
    ensures { result ≡ cond applies (Err refusal) (Ok tt) }
{
    if applies { Err(refusal) } else { Ok(()) }
}

// Numbers 14, 4 to 8, 12, 9, 13 and 10, in the order of the table: the first that applies.
pub fn judge(t: Typed, f: Facts) -> Result<(), Refusal>
    ensures { result ≡ answer_for (table f (raw_of t)) }
{
    let verb = t.verb;
    verb.row(t.set.is_empty(), Refusal::EmptySet)?;
    refuse(!f.by, Refusal::ByDead)?;
    verb.row(!(f.on & f.to & f.members), Refusal::NamedDead)?;
    verb.row(f.on, Refusal::AlreadyLive)?;
    verb.row(t.on.0 == 0, Refusal::RootItem)?;
    verb.row(!f.edits, Refusal::NoEdit)?;
    verb.row(f.back, Refusal::ShiftBack)?;
    verb.row(t.right.0 == 0, Refusal::EditRight)?;
    verb.row(f.past, Refusal::LastPast)?;
    verb.row(f.full, Refusal::Full)
}
