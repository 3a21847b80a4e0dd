// Which engine this is: the version of its functions, and the date of the images' layout. A change of layout changes the date.

#![tactic(auto)]

ghost use Rattle.std.specs.Prelude.{◌≡◌};

// The version, by three numbers. What callers see may change with the minor one.
#[derive(Clone, Copy)]
pub struct Version {}

impl Version {
    pub const MAJOR: u32 = 1;

    pub const MINOR: u32 = 9;

    pub const PATCH: u32 = 0;

    // As one number, two digits each for minor and patch.
    pub fn number() -> u32
        ensures { result ≡ 10900 }
    {
        10000 * Version::MAJOR + 100 * Version::MINOR + Version::PATCH
    }
}

// The layout of the images, by its date.
#[derive(Clone, Copy)]
pub struct Layout {}

impl Layout {
    pub const YEAR: u32 = 2026;

    pub const MONTH: u32 = 11;

    pub const DAY: u32 = 17;

    // As one number, two digits each for month and day.
    pub fn date() -> u32
        ensures { result ≡ 20261117 }
    {
        10000 * Layout::YEAR + 100 * Layout::MONTH + Layout::DAY
    }
}
