//! Charsets of a byte a character, in which dictionaries of libhyphen are written.
ghost use Rattle.std.specs.Prelude.{◌≡◌, ◌≤◌, bytes_eq, length, option_map, IfOk, string_bytes};
ghost use Rattle.std.specs.List.{position_or_len};
ghost use Rattle.textwrap_patterns.specs.Charsets.{character_in, charset_of, decoded, is_line_feed_byte};
ghost use Rattle.textwrap_patterns.specs.Charsets.{latin_table, names_charset, other_table, plain_name};
ghost use Rattle.textwrap_patterns.specs.Charsets.{table_named};

use std::alloc::{AllocError, Allocator};

// The characters for the last bytes of each charset, by the tables of
// <https://www.unicode.org/Public/MAPPINGS/>; U+FFFD where a byte is none of the charset.

/// ISO 8859-1.
#[rattlefmt::skip]
pub const LATIN_1: [char; 96] = [
    '\u{a0}', '¡', '¢', '£', '¤', '¥', '¦', '§', '¨', '©', 'ª', '«', '¬', '\u{ad}', '®', '¯',
    '°', '±', '²', '³', '´', 'µ', '¶', '·', '¸', '¹', 'º', '»', '¼', '½', '¾', '¿',
    'À', 'Á', 'Â', 'Ã', 'Ä', 'Å', 'Æ', 'Ç', 'È', 'É', 'Ê', 'Ë', 'Ì', 'Í', 'Î', 'Ï',
    'Ð', 'Ñ', 'Ò', 'Ó', 'Ô', 'Õ', 'Ö', '×', 'Ø', 'Ù', 'Ú', 'Û', 'Ü', 'Ý', 'Þ', 'ß',
    'à', 'á', 'â', 'ã', 'ä', 'å', 'æ', 'ç', 'è', 'é', 'ê', 'ë', 'ì', 'í', 'î', 'ï',
    'ð', 'ñ', 'ò', 'ó', 'ô', 'õ', 'ö', '÷', 'ø', 'ù', 'ú', 'û', 'ü', 'ý', 'þ', 'ÿ',
];

/// ISO 8859-2.
#[rattlefmt::skip]
pub const LATIN_2: [char; 96] = [
    '\u{a0}', 'Ą', '˘', 'Ł', '¤', 'Ľ', 'Ś', '§', '¨', 'Š', 'Ş', 'Ť', 'Ź', '\u{ad}', 'Ž', 'Ż',
    '°', 'ą', '˛', 'ł', '´', 'ľ', 'ś', 'ˇ', '¸', 'š', 'ş', 'ť', 'ź', '˝', 'ž', 'ż',
    'Ŕ', 'Á', 'Â', 'Ă', 'Ä', 'Ĺ', 'Ć', 'Ç', 'Č', 'É', 'Ę', 'Ë', 'Ě', 'Í', 'Î', 'Ď',
    'Đ', 'Ń', 'Ň', 'Ó', 'Ô', 'Ő', 'Ö', '×', 'Ř', 'Ů', 'Ú', 'Ű', 'Ü', 'Ý', 'Ţ', 'ß',
    'ŕ', 'á', 'â', 'ă', 'ä', 'ĺ', 'ć', 'ç', 'č', 'é', 'ę', 'ë', 'ě', 'í', 'î', 'ď',
    'đ', 'ń', 'ň', 'ó', 'ô', 'ő', 'ö', '÷', 'ř', 'ů', 'ú', 'ű', 'ü', 'ý', 'ţ', '˙',
];

/// ISO 8859-4.
#[rattlefmt::skip]
pub const LATIN_4: [char; 96] = [
    '\u{a0}', 'Ą', 'ĸ', 'Ŗ', '¤', 'Ĩ', 'Ļ', '§', '¨', 'Š', 'Ē', 'Ģ', 'Ŧ', '\u{ad}', 'Ž', '¯',
    '°', 'ą', '˛', 'ŗ', '´', 'ĩ', 'ļ', 'ˇ', '¸', 'š', 'ē', 'ģ', 'ŧ', 'Ŋ', 'ž', 'ŋ',
    'Ā', 'Á', 'Â', 'Ã', 'Ä', 'Å', 'Æ', 'Į', 'Č', 'É', 'Ę', 'Ë', 'Ė', 'Í', 'Î', 'Ī',
    'Đ', 'Ņ', 'Ō', 'Ķ', 'Ô', 'Õ', 'Ö', '×', 'Ø', 'Ų', 'Ú', 'Û', 'Ü', 'Ũ', 'Ū', 'ß',
    'ā', 'á', 'â', 'ã', 'ä', 'å', 'æ', 'į', 'č', 'é', 'ę', 'ë', 'ė', 'í', 'î', 'ī',
    'đ', 'ņ', 'ō', 'ķ', 'ô', 'õ', 'ö', '÷', 'ø', 'ų', 'ú', 'û', 'ü', 'ũ', 'ū', '˙',
];

/// ISO 8859-5.
#[rattlefmt::skip]
pub const CYRILLIC: [char; 96] = [
    '\u{a0}', 'Ё', 'Ђ', 'Ѓ', 'Є', 'Ѕ', 'І', 'Ї', 'Ј', 'Љ', 'Њ', 'Ћ', 'Ќ', '\u{ad}', 'Ў', 'Џ',
    'А', 'Б', 'В', 'Г', 'Д', 'Е', 'Ж', 'З', 'И', 'Й', 'К', 'Л', 'М', 'Н', 'О', 'П',
    'Р', 'С', 'Т', 'У', 'Ф', 'Х', 'Ц', 'Ч', 'Ш', 'Щ', 'Ъ', 'Ы', 'Ь', 'Э', 'Ю', 'Я',
    'а', 'б', 'в', 'г', 'д', 'е', 'ж', 'з', 'и', 'й', 'к', 'л', 'м', 'н', 'о', 'п',
    'р', 'с', 'т', 'у', 'ф', 'х', 'ц', 'ч', 'ш', 'щ', 'ъ', 'ы', 'ь', 'э', 'ю', 'я',
    '№', 'ё', 'ђ', 'ѓ', 'є', 'ѕ', 'і', 'ї', 'ј', 'љ', 'њ', 'ћ', 'ќ', '§', 'ў', 'џ',
];

/// ISO 8859-7; three bytes are none of it.
#[rattlefmt::skip]
pub const GREEK: [char; 96] = [
    '\u{a0}', '‘', '’', '£', '€', '₯', '¦', '§', '¨', '©', 'ͺ', '«', '¬', '\u{ad}', '\u{fffd}', '―',
    '°', '±', '²', '³', '΄', '΅', 'Ά', '·', 'Έ', 'Ή', 'Ί', '»', 'Ό', '½', 'Ύ', 'Ώ',
    'ΐ', 'Α', 'Β', 'Γ', 'Δ', 'Ε', 'Ζ', 'Η', 'Θ', 'Ι', 'Κ', 'Λ', 'Μ', 'Ν', 'Ξ', 'Ο',
    'Π', 'Ρ', '\u{fffd}', 'Σ', 'Τ', 'Υ', 'Φ', 'Χ', 'Ψ', 'Ω', 'Ϊ', 'Ϋ', 'ά', 'έ', 'ή', 'ί',
    'ΰ', 'α', 'β', 'γ', 'δ', 'ε', 'ζ', 'η', 'θ', 'ι', 'κ', 'λ', 'μ', 'ν', 'ξ', 'ο',
    'π', 'ρ', 'ς', 'σ', 'τ', 'υ', 'φ', 'χ', 'ψ', 'ω', 'ϊ', 'ϋ', 'ό', 'ύ', 'ώ', '\u{fffd}',
];

/// ISO 8859-13.
#[rattlefmt::skip]
pub const LATIN_7: [char; 96] = [
    '\u{a0}', '”', '¢', '£', '¤', '„', '¦', '§', 'Ø', '©', 'Ŗ', '«', '¬', '\u{ad}', '®', 'Æ',
    '°', '±', '²', '³', '“', 'µ', '¶', '·', 'ø', '¹', 'ŗ', '»', '¼', '½', '¾', 'æ',
    'Ą', 'Į', 'Ā', 'Ć', 'Ä', 'Å', 'Ę', 'Ē', 'Č', 'É', 'Ź', 'Ė', 'Ģ', 'Ķ', 'Ī', 'Ļ',
    'Š', 'Ń', 'Ņ', 'Ó', 'Ō', 'Õ', 'Ö', '×', 'Ų', 'Ł', 'Ś', 'Ū', 'Ü', 'Ż', 'Ž', 'ß',
    'ą', 'į', 'ā', 'ć', 'ä', 'å', 'ę', 'ē', 'č', 'é', 'ź', 'ė', 'ģ', 'ķ', 'ī', 'ļ',
    'š', 'ń', 'ņ', 'ó', 'ō', 'õ', 'ö', '÷', 'ų', 'ł', 'ś', 'ū', 'ü', 'ż', 'ž', '’',
];

/// ISO 8859-15.
#[rattlefmt::skip]
pub const LATIN_9: [char; 96] = [
    '\u{a0}', '¡', '¢', '£', '€', '¥', 'Š', '§', 'š', '©', 'ª', '«', '¬', '\u{ad}', '®', '¯',
    '°', '±', '²', '³', 'Ž', 'µ', '¶', '·', 'ž', '¹', 'º', '»', 'Œ', 'œ', 'Ÿ', '¿',
    'À', 'Á', 'Â', 'Ã', 'Ä', 'Å', 'Æ', 'Ç', 'È', 'É', 'Ê', 'Ë', 'Ì', 'Í', 'Î', 'Ï',
    'Ð', 'Ñ', 'Ò', 'Ó', 'Ô', 'Õ', 'Ö', '×', 'Ø', 'Ù', 'Ú', 'Û', 'Ü', 'Ý', 'Þ', 'ß',
    'à', 'á', 'â', 'ã', 'ä', 'å', 'æ', 'ç', 'è', 'é', 'ê', 'ë', 'ì', 'í', 'î', 'ï',
    'ð', 'ñ', 'ò', 'ó', 'ô', 'õ', 'ö', '÷', 'ø', 'ù', 'ú', 'û', 'ü', 'ý', 'þ', 'ÿ',
];

/// KOI8-R, by RFC 1489.
#[rattlefmt::skip]
pub const KOI8_R: [char; 128] = [
    '─', '│', '┌', '┐', '└', '┘', '├', '┤', '┬', '┴', '┼', '▀', '▄', '█', '▌', '▐',
    '░', '▒', '▓', '⌠', '■', '∙', '√', '≈', '≤', '≥', '\u{a0}', '⌡', '°', '²', '·', '÷',
    '═', '║', '╒', 'ё', '╓', '╔', '╕', '╖', '╗', '╘', '╙', '╚', '╛', '╜', '╝', '╞',
    '╟', '╠', '╡', 'Ё', '╢', '╣', '╤', '╥', '╦', '╧', '╨', '╩', '╪', '╫', '╬', '©',
    'ю', 'а', 'б', 'ц', 'д', 'е', 'ф', 'г', 'х', 'и', 'й', 'к', 'л', 'м', 'н', 'о',
    'п', 'я', 'р', 'с', 'т', 'у', 'ж', 'в', 'ь', 'ы', 'з', 'ш', 'э', 'щ', 'ч', 'ъ',
    'Ю', 'А', 'Б', 'Ц', 'Д', 'Е', 'Ф', 'Г', 'Х', 'И', 'Й', 'К', 'Л', 'М', 'Н', 'О',
    'П', 'Я', 'Р', 'С', 'Т', 'У', 'Ж', 'В', 'Ь', 'Ы', 'З', 'Ш', 'Э', 'Щ', 'Ч', 'Ъ',
];

/// KOI8-U, by RFC 2319.
#[rattlefmt::skip]
pub const KOI8_U: [char; 128] = [
    '─', '│', '┌', '┐', '└', '┘', '├', '┤', '┬', '┴', '┼', '▀', '▄', '█', '▌', '▐',
    '░', '▒', '▓', '⌠', '■', '∙', '√', '≈', '≤', '≥', '\u{a0}', '⌡', '°', '²', '·', '÷',
    '═', '║', '╒', 'ё', 'є', '╔', 'і', 'ї', '╗', '╘', '╙', '╚', '╛', 'ґ', '╝', '╞',
    '╟', '╠', '╡', 'Ё', 'Є', '╣', 'І', 'Ї', '╦', '╧', '╨', '╩', '╪', 'Ґ', '╬', '©',
    'ю', 'а', 'б', 'ц', 'д', 'е', 'ф', 'г', 'х', 'и', 'й', 'к', 'л', 'м', 'н', 'о',
    'п', 'я', 'р', 'с', 'т', 'у', 'ж', 'в', 'ь', 'ы', 'з', 'ш', 'э', 'щ', 'ч', 'ъ',
    'Ю', 'А', 'Б', 'Ц', 'Д', 'Е', 'Ф', 'Г', 'Х', 'И', 'Й', 'К', 'Л', 'М', 'Н', 'О',
    'П', 'Я', 'Р', 'С', 'Т', 'У', 'Ж', 'В', 'Ь', 'Ы', 'З', 'Ш', 'Э', 'Щ', 'Ч', 'Ъ',
];

/// CP1251 of Microsoft; one byte is none of it.
#[rattlefmt::skip]
pub const WINDOWS_1251: [char; 128] = [
    'Ђ', 'Ѓ', '‚', 'ѓ', '„', '…', '†', '‡', '€', '‰', 'Љ', '‹', 'Њ', 'Ќ', 'Ћ', 'Џ',
    'ђ', '‘', '’', '“', '”', '•', '–', '—', '\u{fffd}', '™', 'љ', '›', 'њ', 'ќ', 'ћ', 'џ',
    '\u{a0}', 'Ў', 'ў', 'Ј', '¤', 'Ґ', '¦', '§', 'Ё', '©', 'Є', '«', '¬', '\u{ad}', '®', 'Ї',
    '°', '±', 'І', 'і', 'ґ', 'µ', '¶', '·', 'ё', '№', 'є', '»', 'ј', 'Ѕ', 'ѕ', 'ї',
    'А', 'Б', 'В', 'Г', 'Д', 'Е', 'Ж', 'З', 'И', 'Й', 'К', 'Л', 'М', 'Н', 'О', 'П',
    'Р', 'С', 'Т', 'У', 'Ф', 'Х', 'Ц', 'Ч', 'Ш', 'Щ', 'Ъ', 'Ы', 'Ь', 'Э', 'Ю', 'Я',
    'а', 'б', 'в', 'г', 'д', 'е', 'ж', 'з', 'и', 'й', 'к', 'л', 'м', 'н', 'о', 'п',
    'р', 'с', 'т', 'у', 'ф', 'х', 'ц', 'ч', 'ш', 'щ', 'ъ', 'ы', 'ь', 'э', 'ю', 'я',
];

/// A name as names are compared: its letters and digits of ASCII, in lower case.
pub fn plain_name<A: Allocator>(alloc: A, line: &[u8]) -> Result<Vec<u8, A>, AllocError>
    ensures { IfOk result (λ name. name.items ≡ plain_name line.now) }
{
    let mut name = Vec::new(alloc);
    for byte in line {
        if byte.is_ascii_alphanumeric() {
            name.push(byte.to_ascii_lowercase())?;
        }
    }
    Ok(name)
}

/// Whether a name begins as that of a charset does which files name, known or not.
pub fn names_charset(name: &[u8]) -> bool
    ensures { result ≡ names_charset name.now }
{
    name.starts_with(b"utf8")
        || name.starts_with(b"iso8859")
        || name.starts_with(b"koi8")
        || name.starts_with(b"microsoftcp")
        || name.starts_with(b"windows12")
        || name.starts_with(b"cp125")
        || name.starts_with(b"tis620")
        || name.starts_with(b"iscii")
}

fn is_name(name: &[u8], other: &[u8]) -> bool
    ensures { result ≡ bytes_eq name.now other.now }
{
    name == other
}

/// The characters of the charset of this name.
fn table_named(name: &[u8]) -> Option<&'static [char]>
    ensures { option_map (λ table. table.now) result ≡ table_named name.now }
{
    match latin_table(name) {
        Some(table) => Some(table),
        None => other_table(name),
    }
}

fn latin_table(name: &[u8]) -> Option<&'static [char]>
    ensures { option_map (λ table. table.now) result ≡ latin_table name.now }
{
    if is_name(name, b"iso88591") {
        Some(&LATIN_1)
    } else if is_name(name, b"iso88592") {
        Some(&LATIN_2)
    } else if is_name(name, b"iso88594") {
        Some(&LATIN_4)
    } else if is_name(name, b"iso885913") {
        Some(&LATIN_7)
    } else if is_name(name, b"iso885915") {
        Some(&LATIN_9)
    } else {
        None
    }
}

fn other_table(name: &[u8]) -> Option<&'static [char]>
    ensures { option_map (λ table. table.now) result ≡ other_table name.now }
{
    if is_name(name, b"iso88595") {
        Some(&CYRILLIC)
    } else if is_name(name, b"iso88597") {
        Some(&GREEK)
    } else if is_name(name, b"koi8r") {
        Some(&KOI8_R)
    } else if is_name(name, b"koi8u") {
        Some(&KOI8_U)
    } else if is_name(name, b"microsoftcp1251")
        || is_name(name, b"windows1251")
        || is_name(name, b"cp1251")
    {
        Some(&WINDOWS_1251)
    } else {
        None
    }
}

/// The characters of the charset that the first line names.
pub fn charset_of<A: Allocator>(
    alloc: A,
    bytes: &[u8],
) -> Result<Option<&'static [char]>, AllocError>
    ensures { IfOk result (λ found. option_map (λ table. table.now) found ≡ charset_of bytes.now) }
{
    let name = plain_name(alloc, &bytes[..line_len(bytes)])?;
    Ok(table_named(&name))
}

/// How many bytes the first line has.
fn line_len(bytes: &[u8]) -> usize
    ensures { result ≡ position_or_len is_line_feed_byte bytes.now }
{
    for (i, byte) in bytes.iter().enumerate() {
        if *byte == b'\n' {
            return i;
        }
    }
    bytes.len()
}

/// The text that bytes stand for.
pub fn decoded<A: Allocator>(
    alloc: A,
    table: &[char],
    bytes: &[u8],
) -> Result<String<A>, AllocError>
    ensures { IfOk result (λ text. string_bytes text ≡ decoded table.now bytes.now) }
{
    let mut text = String::with_capacity(alloc, bytes.len())?;
    for byte in bytes {
        text.push(character_in(table, *byte))?;
    }
    Ok(text)
}

/// The character of a byte: that of ASCII, or one of the last, for which the table has characters.
fn character_in(table: &[char], byte: u8) -> char
    ensures { result ≡ character_in table.now byte }
{
    if byte < 128 {
        return char::from(byte);
    }
    match (usize::from(byte) + table.len()).checked_sub(256) {
        Some(at) => table[at],
        None => '\u{fffd}',
    }
}
