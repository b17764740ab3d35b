//! The parameters of a style (SGR, ECMA-48 8.3.117, and what terminals add): what each of them sets
//! or ends.
ghost use Rattle.std.specs.Prelude.{◌≡◌, ◌<◌, ◌==◌, ◌||◌, ◌∷◌, [], drop, true};
ghost use Rattle.std.specs.Prelude.{IfSome, IsUtf8, length, MatchOption};
ghost use Rattle.std.specs.Char.{is_ascii_digit};
ghost use Rattle.std.specs.Int.{is_in_range};
ghost use Rattle.std.specs.List.{list_all, prefix_len};
ghost use Rattle.textwrap_styles.specs.Settings.{code, color_fields, details, fields};
ghost use Rattle.textwrap_styles.specs.Settings.{first_setting, is_color_code, is_end};
ghost use Rattle.textwrap_styles.specs.Settings.{is_ending_code, is_unknown, kind_of};
ghost use Rattle.textwrap_styles.specs.Settings.{kind_of_code};
ghost use Rattle.textwrap_styles.specs.Settings.{number};
ghost use Rattle.textwrap_styles.specs.Settings.{settings, taken_fields, takes_back};

/// What a setting sets or ends.
#[derive(Clone, Copy, Debug, PartialEq, Eq)]
pub(crate) enum Kind {
    /// All, which 0 ends.
    Reset,
    Bold,
    Faint,
    /// Bold and faint, which 22 ends together.
    Weight,
    Italic,
    /// Letters in Gothic script.
    Gothic,
    /// Italic and Gothic, which 23 ends together.
    Upright,
    Underline,
    Blink,
    Inverse,
    Hidden,
    CrossedOut,
    Font,
    Foreground,
    Background,
    Framed,
    Overlined,
    UnderlineColor,
    /// What the table does not know.
    Unknown,
}

/// How many kinds there are.
pub(crate) const KINDS: usize = 19;

impl Kind {
    /// Its place among the kinds.
    pub(crate) fn number(self) -> usize
        ensures place { result ≡ number self }
        ensures below { result < KINDS }
    {
        self as usize
    }

    /// Whether it is all.
    #[tactic(auto, unfolding(crate::specs::Settings::number))]
    pub(crate) fn is_reset(self) -> bool
        ensures { result ≡ (number self == number Kind.Reset) }
    {
        matches!(self, Kind::Reset)
    }

    /// What takes it back beside its own kind: that of 22 or of 23, or again its own.
    #[tactic(auto, unfolding(crate::specs::Settings::number, crate::specs::Settings::is_unknown, crate::specs::Settings::takes_back))]
    pub(crate) fn common_end(self) -> Kind
        ensures takes { (later : Kind) → takes_back later self
            ≡ (number later == number self) || (number later == number result) }
        ensures known { is_unknown result ≡ is_unknown self }
    {
        match self {
            Kind::Bold | Kind::Faint => Kind::Weight,
            Kind::Italic | Kind::Gothic => Kind::Upright,
            _ => self,
        }
    }

    /// Whether the table does not know it.
    #[tactic(auto, unfolding(crate::specs::Settings::is_unknown))]
    pub(crate) fn is_unknown(self) -> bool
        ensures { result ≡ is_unknown self }
    {
        matches!(self, Kind::Unknown)
    }
}

/// What a parameter of this number sets or ends.
#[tactic(auto, unfolding(crate::specs::Settings::kind_of_code))]
fn kind_of_code(code: u8) -> Kind
    ensures { result ≡ kind_of_code code }
{
    match code {
        0 => Kind::Reset,
        1 => Kind::Bold,
        2 => Kind::Faint,
        22 => Kind::Weight,
        3 => Kind::Italic,
        20 => Kind::Gothic,
        23 => Kind::Upright,
        4 | 21 | 24 => Kind::Underline,
        5 | 6 | 25 => Kind::Blink,
        7 | 27 => Kind::Inverse,
        8 | 28 => Kind::Hidden,
        9 | 29 => Kind::CrossedOut,
        10..=19 => Kind::Font,
        30..=39 | 90..=97 => Kind::Foreground,
        40..=49 | 100..=107 => Kind::Background,
        51 | 52 | 54 => Kind::Framed,
        53 | 55 => Kind::Overlined,
        58 | 59 => Kind::UnderlineColor,
        _ => Kind::Unknown,
    }
}

/// Whether a parameter of this number ends what was set.
#[tactic(auto, unfolding(crate::specs::Settings::is_ending_code))]
fn is_ending_code(code: u8) -> bool
    ensures { result ≡ is_ending_code code }
{
    matches!(code, 0 | 10 | 22..=25 | 27..=29 | 39 | 49 | 54 | 55 | 59)
}

/// Whether a colour follows this number.
#[tactic(auto, unfolding(crate::specs::Settings::is_color_code))]
fn is_color_code(code: u8) -> bool
    ensures { result ≡ is_color_code code }
{
    matches!(code, 38 | 48 | 58)
}

/// How many digits these parameters begin with.
fn digits_len(parameters: &[u8]) -> usize
    ensures { result ≡ prefix_len is_ascii_digit parameters.now }
{
    for (at, byte) in parameters.iter().enumerate() {
        if !byte.is_ascii_digit() {
            return at;
        }
    }
    parameters.len()
}

/// The number that these parameters begin with, 255 where it is greater.
#[tactic(auto, unfolding(crate::specs::Settings::code))]
fn code(parameters: &[u8]) -> u8
    ensures { result ≡ code parameters.now }
{
    let mut code: u8 = 0;
    for byte in &parameters[..digits_len(parameters)] {
        code = code.saturating_mul(10).saturating_add(byte - b'0');
    }
    code
}

/// What follows that number.
#[tactic(auto, unfolding(crate::specs::Settings::details))]
fn details(parameters: &[u8]) -> &[u8]
    ensures { result.now ≡ details parameters.now }
{
    let (_, details) = parameters.split_at(digits_len(parameters));
    details
}

/// How long so many fields between semicolons are together: all, if there are no more.
fn fields_len(parameters: &[u8], count: usize) -> usize
    ensures { result ≡ length (fields count parameters.now) }
{
    let mut left = count;
    for (at, byte) in parameters.iter().enumerate() {
        if *byte == b';' {
            if left <= 1 {
                return at;
            }
            left -= 1;
        }
    }
    parameters.len()
}

/// How many fields the first setting takes: none where the table does not know it.
#[tactic(auto, unfolding(crate::specs::Settings::taken_fields))]
fn taken_fields(parameters: &[u8]) -> usize
    ensures { result ≡ taken_fields parameters.now }
{
    let code = code(parameters);
    let details = details(parameters);
    if details.starts_with(b":") {
        usize::from(code == 4 || is_color_code(code))
    } else if is_color_code(code) {
        color_fields(parameters, mode(details))
    } else {
        usize::from(!kind_of_code(code).is_unknown())
    }
}

/// The number behind the sign that follows 4, 38, 48 or 58.
fn mode(details: &[u8]) -> u8
    ensures { result ≡ code (drop 1 details.now) }
{
    match details.split_first() {
        Some((_, rest)) => code(rest),
        None => 0,
    }
}

/// How many fields a colour takes, by that number: none where they are not all there.
#[tactic(auto, unfolding(crate::specs::Settings::color_fields))]
fn color_fields(parameters: &[u8], mode: u8) -> usize
    ensures { result ≡ color_fields parameters.now mode }
{
    let count: usize = match mode {
        2 => 5,
        5 => 3,
        _ => 0,
    };
    if fields_len(parameters, count.saturating_sub(1)) < parameters.len() {
        count
    } else {
        0
    }
}

/// How long the first setting is. One that the table does not know takes all that follows it, which
/// may be its own.
#[tactic(auto, unfolding(crate::specs::Settings::first_setting))]
fn first_len(parameters: &[u8]) -> usize
    ensures { result ≡ length (first_setting parameters.now) }
{
    match taken_fields(parameters) {
        0 => parameters.len(),
        count => fields_len(parameters, count),
    }
}

/// The first setting, and the parameters behind its semicolon.
pub(crate) fn next_setting(parameters: &str) -> (&str, Option<&str>)
    requires { list_all (is_in_range 0x30 0x3B) parameters.now ≡ true }
    ensures settings { MatchOption result.1 (settings parameters.now ≡ result.0.now ∷ [])
        (λ rest. settings parameters.now ≡ result.0.now ∷ settings rest.now) }
    ensures rest { IfSome result.1 (λ rest.
        list_all (is_in_range 0x30 0x3B) rest.now ≡ true) }
    ensures shorter { IfSome result.1 (λ rest. length rest.now < length parameters.now) }
    ensures utf8 { IfSome result.1 (λ rest. IsUtf8 rest.now) }
{
    let len = first_len(parameters.as_bytes());
    if len < parameters.len() {
        (&parameters[..len], Some(&parameters[len + 1..]))
    } else {
        (parameters, None)
    }
}

/// What a setting sets or ends.
#[tactic(auto, unfolding(crate::specs::Settings::kind_of))]
pub(crate) fn kind_of(setting: &str) -> Kind
    ensures { result ≡ kind_of setting.now }
{
    let setting = setting.as_bytes();
    if taken_fields(setting) == 0 {
        Kind::Unknown
    } else {
        kind_of_code(code(setting))
    }
}

/// Whether it ends what was set: `4:0` does, too, whatever follows the 0.
#[tactic(auto, unfolding(crate::specs::Settings::is_end))]
pub(crate) fn is_end(setting: &str) -> bool
    ensures { result ≡ is_end setting.now }
{
    let setting = setting.as_bytes();
    let details = details(setting);
    if details.starts_with(b":") {
        code(setting) == 4 && mode(details) == 0
    } else {
        is_ending_code(code(setting))
    }
}
