// Command lines: what a line asks for, lines put together from chunks of input, and bytes and numbers as text.

#![tactic(auto)]

use model::Command;

pub mod collect;
pub mod show;

ghost use Rattle.std.specs.Prelude.{◌≡◌, Some, true, not, map, ◌%◌, ◌≤◌, length, get_or};
ghost use Rattle.std.specs.List.{position};
ghost use Rattle.std.specs.Char.{is_ascii_digit};
ghost use Rattle.bits.specs.Sets.{all};
ghost use Rattle.model.specs.declared.Command.TheVariants.{Allow, AllowSet, Withdraw, Drop, Lend, Recall};
ghost use Rattle.lines.specs.declared.Request.TheVariants.{Run, Ask};
ghost use Rattle.lines.specs.Grammar.{form_of, meaning, within};
ghost use Rattle.lines.specs.Line.{digit, digits, value_of, number_at, set_of, set_at, values_by, parse_line};
ghost use Rattle.lines.specs.Reader.{after_at, hex_value_of, key_text, key_at, place, word_of, keys_of, parts_of, ReadAs, Only};

// The place after the bytes of w, where they stand at a place of s.
fn after(s: &[u8], at: usize, w: &[u8]) -> Option<usize>
    ensures { result ≡ after_at w.now s.now at }
{
    s.get(at..).unwrap_or(&[]).strip_prefix(w)?;
    Some(at + w.len())
}

// The place of the first byte that is no decimal digit.
fn digits_end(s: &[u8]) -> Option<usize>
    ensures { result ≡ position (λ b. not (is_ascii_digit b)) s.now }
{
    s.iter().position(|b| !b.is_ascii_digit())
}

// The decimal digits that s begins with.
fn digits(s: &[u8]) -> &[u8]
    ensures { result.now ≡ digits s.now }
{
    let n = digits_end(s).unwrap_or(s.len());
    &s[..n]
}

// The value of at most 10 decimal digits.
fn value_of(ds: &[u8]) -> u64
    requires few { length ds.now ≤ 10 }
    requires decimal { all digit ds.now ≡ true }
    ensures { result ≡ value_of ds.now }
{
    let mut v = 0;
    for b in ds {
        v = v * 10 + u64::from(*b - b'0');
    }
    v
}

// The number that stands in s at a place, and the place after it.
fn read_number(s: &[u8], at: usize) -> Option<(u64, usize)>
    ensures { result ≡ number_at s.now at }
{
    let rest = s.get(at..)?;
    // Eleven digits are too many already, so no more are looked at.
    let ds = digits(&rest[..rest.len().min(11)]);
    if ds.is_empty() || ds.len() > 10 {
        return None;
    }
    if ds.len() > 1 && ds[0] == b'0' {
        return None;
    }
    let v = value_of(ds);
    (v <= u64::from(u32::MAX)).then_some((v, at + ds.len()))
}

// The value of a lowercase hexadecimal digit.
fn hex_value(b: u8) -> Option<u64>
    ensures { result ≡ hex_value_of b }
{
    match b {
        b'0'..=b'9' => Some(u64::from(b - b'0')),
        b'a'..=b'f' => Some(u64::from(b - b'a') + 10),
        _ => None,
    }
}

// The set that 16 bytes are, where next is the place after them.
fn set_of(ds: &[u8], next: usize) -> Option<(u64, usize)>
    requires { length ds.now ≡ 16 }
    ensures { result ≡ set_of ds.now next }
{
    let mut v = 0;
    for b in ds {
        v = v * 16 + hex_value(*b)?;
    }
    Some((v, next))
}

// The set that stands in s at a place, and the place after it.
fn read_set(s: &[u8], at: usize) -> Option<(u64, usize)>
    ensures { result ≡ set_at s.now at }
{
    let ds = s.get(at..)?.get(..16)?;
    set_of(ds, at + 16)
}

// The keys of the fields after the first, in which a line says what it does.
#[derive(Clone, Copy)]
enum Key {
    By,
    Who,
    To,
    Set,
    On,
    Right,
    Last,
    Now,
    Depth,
}

impl Key {
    fn text(self) -> &'static [u8]
        ensures { result.now ≡ key_text self }
    {
        match self {
            Key::By => b" by=",
            Key::Who => b" who=",
            Key::To => b" to=",
            Key::Set => b" set=",
            Key::On => b" on=",
            Key::Right => b" right=",
            Key::Last => b" last=",
            Key::Now => b" now=",
            Key::Depth => b" depth=",
        }
    }

    // The value of the key at a place of s, and the place after it.
    fn read(self, s: &[u8], at: usize) -> Option<(u64, usize)>
        ensures { result ≡ key_at self s.now at }
    {
        let value = after(s, at, self.text())?;
        match self {
            Key::Set => read_set(s, value),
            _ => read_number(s, value),
        }
    }
}

// What a line does, in the order of the grammar's list. It is no `Verb` of a command: a line may ask for a check.
#[derive(Clone, Copy)]
enum Action {
    Create,
    Delete,
    Allow,
    AllowSet,
    Withdraw,
    Drop,
    Lend,
    Recall,
    Shift,
    Sweep,
    Check,
}

impl Action {
    // The only one that can have this line: bytes 5 and 9 tell them apart.
    fn of(s: &[u8]) -> Action
        ensures { Only s.now (place result) }
    {
        let sum = u32::from(byte(s, 5)) + u32::from(byte(s, 9));
        match sum % 64 {
            12 => Action::Delete,
            14 => Action::Allow,
            17 => Action::AllowSet,
            21 => Action::Withdraw,
            40 => Action::Drop,
            39 => Action::Lend,
            3 => Action::Recall,
            11 => Action::Shift,
            7 => Action::Sweep,
            28 => Action::Check,
            _ => Action::Create,
        }
    }

    fn word(self) -> &'static [u8]
        ensures { result.now ≡ word_of self }
    {
        match self {
            Action::Create => b"create",
            Action::Delete => b"delete",
            Action::Allow => b"allow",
            Action::AllowSet => b"allowset",
            Action::Withdraw => b"withdraw",
            Action::Drop => b"drop",
            Action::Lend => b"lend",
            Action::Recall => b"recall",
            Action::Shift => b"shift",
            Action::Sweep => b"sweep",
            Action::Check => b"check",
        }
    }

    // The keys of its fields, in their order.
    fn keys(self) -> &'static [Key]
        ensures { result.now ≡ keys_of self }
    {
        match self {
            Action::Create | Action::Delete => &[Key::By, Key::On],
            Action::Allow | Action::Drop => &[Key::By, Key::To, Key::On, Key::Right, Key::Depth],
            Action::AllowSet => &[Key::By, Key::Set, Key::On, Key::Right, Key::Depth],
            Action::Withdraw => &[Key::By, Key::To, Key::On, Key::Right],
            Action::Lend | Action::Recall => &[
                Key::By,
                Key::To,
                Key::On,
                Key::Right,
                Key::Depth,
                Key::Last,
            ],
            Action::Shift => &[Key::By, Key::Now],
            Action::Sweep => &[Key::By],
            Action::Check => &[Key::Who, Key::On, Key::Right],
        }
    }
}

// The most values that a line has.
const MOST: usize = 6;

// The values of a line in their order, and 0 after them.
fn values_of(s: &[u8], action: Action) -> Option<[u64; MOST]>
    ensures { ReadAs (values_by (form_of (place action)).pattern s.now) result }
{
    let mut at = after(s, after(s, 0, b"do=")?, action.word())?;
    let mut values = [0; MOST];
    for (i, key) in action.keys().iter().enumerate() {
        let (v, next) = key.read(s, at)?;
        values[i] = v;
        at = next;
    }
    (at == s.len()).then_some(values)
}

// What a line that is not malformed asks for.
#[derive(Clone, Copy)]
pub enum Request {
    Run(Command),
    Ask { who: u32, on: u32, right: u32 },
}

// What the lines with more than two fields ask for: with these literals in its arms `meaning_of` would have over 40 lines.
fn allow(by: u32, to: u32, on: u32, right: u32, depth: u32) -> Request
    ensures { result ≡ Run (Allow by to on right depth) }
{
    Request::Run(Command::Allow {
        by,
        to,
        on,
        right,
        depth,
    })
}

fn allow_set(by: u32, set: u64, on: u32, right: u32, depth: u32) -> Request
    ensures { result ≡ Run (AllowSet by set on right depth) }
{
    Request::Run(Command::AllowSet {
        by,
        set,
        on,
        right,
        depth,
    })
}

fn withdraw(by: u32, to: u32, on: u32, right: u32) -> Request
    ensures { result ≡ Run (Withdraw by to on right) }
{
    Request::Run(Command::Withdraw { by, to, on, right })
}

fn drop_depth(by: u32, to: u32, on: u32, right: u32, depth: u32) -> Request
    ensures { result ≡ Run (Drop by to on right depth) }
{
    Request::Run(Command::Drop {
        by,
        to,
        on,
        right,
        depth,
    })
}

fn lend(by: u32, to: u32, on: u32, right: u32, depth: u32, last: u32) -> Request
    ensures { result ≡ Run (Lend by to on right depth last) }
{
    Request::Run(Command::Lend {
        by,
        to,
        on,
        right,
        depth,
        last,
    })
}

fn recall(by: u32, to: u32, on: u32, right: u32, depth: u32, last: u32) -> Request
    ensures { result ≡ Run (Recall by to on right depth last) }
{
    Request::Run(Command::Recall {
        by,
        to,
        on,
        right,
        depth,
        last,
    })
}

fn ask(who: u32, on: u32, right: u32) -> Request
    ensures { result ≡ Ask who on right }
{
    Request::Ask { who, on, right }
}

// The lowest 32 bits of each: of a number, the number itself.
fn lowest(values: [u64; MOST]) -> [u32; MOST]
    ensures { result ≡ map (λ v. v % 4294967296) values }
{
    values.map(|v| (v % 4294967296) as u32)
}

// What a line with these values asks for.
fn meaning_of(action: Action, values: [u64; MOST]) -> Request
    requires { within (form_of (place action)).pattern values ≡ true }
    ensures { Some result ≡ meaning (form_of (place action)) values }
{
    let [a, b, c, d, e, f] = lowest(values);
    match action {
        Action::Create => Request::Run(Command::Create { by: a, on: b }),
        Action::Delete => Request::Run(Command::Delete { by: a, on: b }),
        Action::Allow => allow(a, b, c, d, e),
        Action::AllowSet => allow_set(a, values[1], c, d, e),
        Action::Withdraw => withdraw(a, b, c, d),
        Action::Drop => drop_depth(a, b, c, d, e),
        Action::Lend => lend(a, b, c, d, e, f),
        Action::Recall => recall(a, b, c, d, e, f),
        Action::Shift => Request::Run(Command::Shift { by: a, now: b }),
        Action::Sweep => Request::Run(Command::Sweep { by: a }),
        Action::Check => ask(a, b, c),
    }
}

// The byte at a place, and 0 past the end.
fn byte(s: &[u8], at: usize) -> u8
    ensures { result ≡ get_or s.now at 0 }
{
    s.get(at).copied().unwrap_or(0)
}

// What a line asks for, None where it is malformed; the line comes without its byte 10.
pub fn parse(line: &[u8]) -> Option<Request>
    ensures { result ≡ parse_line line.now }
{
    let action = Action::of(line);
    let values = values_of(line, action)?;
    Some(meaning_of(action, values))
}
