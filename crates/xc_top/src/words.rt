// The words of a command line.
ghost use Rattle.std.specs.Char.{is_ascii_digit};
ghost use Rattle.std.specs.List.{list_all};
ghost use Rattle.std.specs.Prelude.{◌≡◌, ◌∷◌, option_map, string_bytes, map};
ghost use Rattle.xc_top.specs.Steps.Named.{named, named_check, named_sum, named_verify};
ghost use Rattle.xc_top.specs.Words.{SumOf, CheckOf, VerifyOf, SampleOf, words_of, sum_of, check_of, check_of_kind, verify_of, verify_of_kind, arcs_chosen, texts, mode_of, is_file_word, are_file_words, is_name_word, is_signed, is_term_word, is_sum, are_terms, name_of, is_negative, sample_of, size_of, size, is_numeral};

use xc_calc::ArcKind;
use xc_chars::split;
use xc_interval::Mode;

/// What the words of `sum` name.
#[derive(Drop)]
pub struct Sum<'a> {
    /// How the report's values were made.
    pub mode: Mode,
    /// The report's file.
    pub report: &'a str,
    /// The total's name, as `prefix:local`.
    pub total: &'a str,
    /// The contributors: `+` or `-`, and a name.
    pub terms: &'a [String],
}

/// What the words of `check` name.
#[derive(Drop)]
pub struct Check<'a> {
    /// Which arcs count.
    pub kind: ArcKind,
    /// How the report's values were made.
    pub mode: Mode,
    /// The report's file.
    pub report: &'a str,
    /// The files of the taxonomy's documents.
    pub documents: &'a [String],
}

/// What the words of `verify` name.
#[derive(Drop)]
pub struct Verify<'a> {
    /// The certificate's file.
    pub certificate: &'a str,
    /// What it is judged over.
    pub over: Check<'a>,
}

/// What accepted words ask for.
#[derive(Drop)]
pub enum Command<'a> {
    Sum(Sum<'a>),
    Check(Check<'a>),
    Verify(Verify<'a>),
    /// The sample of this many nodes.
    Sample(u32),
}

/// What these words ask for, where they are accepted.
pub fn read_words(words: &[String]) -> Option<Command<'_>>
    ensures { option_map named result ≡ words_of (texts words.now) }
{
    let (command, words) = words.split_first()?;
    if command.as_str() == "sum" {
        return as_sum(read_sum(words));
    }
    if command.as_str() == "check" {
        return as_check(read_check(words));
    }
    if command.as_str() == "verify" {
        return as_verify(read_verify(words));
    }
    if command.as_str() == "sample" {
        return as_sample(read_sample(words));
    }
    None
}

fn as_sum(sum: Option<Sum<'_>>) -> Option<Command<'_>>
    ensures { option_map named result ≡ option_map SumOf (option_map named_sum sum.entry) }
{
    match sum {
        Some(sum) => Some(Command::Sum(sum)),
        None => None,
    }
}

fn as_check(check: Option<Check<'_>>) -> Option<Command<'_>>
    ensures { option_map named result ≡ option_map CheckOf (option_map named_check check.entry) }
{
    match check {
        Some(check) => Some(Command::Check(check)),
        None => None,
    }
}

fn as_verify(verify: Option<Verify<'_>>) -> Option<Command<'_>>
    ensures { option_map named result ≡ option_map VerifyOf (option_map named_verify verify.entry) }
{
    match verify {
        Some(verify) => Some(Command::Verify(verify)),
        None => None,
    }
}

fn as_sample<'a>(count: Option<u32>) -> Option<Command<'a>>
    ensures { option_map named result ≡ option_map SampleOf count }
{
    match count {
        Some(count) => Some(Command::Sample(count)),
        None => None,
    }
}

// What the words behind `sum` name.
fn read_sum(words: &[String]) -> Option<Sum<'_>>
    ensures { option_map named_sum result ≡ sum_of (texts words.now) }
{
    let (mode, words) = words.split_first()?;
    let (report, words) = words.split_first()?;
    let (total, terms) = words.split_first()?;
    if !is_sum(report.as_str(), total.as_str(), terms) {
        return None;
    }
    let mode = mode_of(mode.as_str())?;
    Some(Sum {
        mode,
        report: report.as_str(),
        total: total.as_str(),
        terms,
    })
}

// What the words behind `check` name.
fn read_check(words: &[String]) -> Option<Check<'_>>
    ensures { option_map named_check result ≡ check_of (texts words.now) }
{
    let (kind, words) = arcs_chosen(words);
    read_files(kind, words)
}

// What the words behind `verify` name.
fn read_verify(words: &[String]) -> Option<Verify<'_>>
    ensures { option_map named_verify result ≡ verify_of (texts words.now) }
{
    let (kind, words) = arcs_chosen(words);
    let (mode, words) = words.split_first()?;
    let (certificate, words) = words.split_first()?;
    if !is_file_word(certificate.as_str()) {
        return None;
    }
    let over = read_rest(kind, mode.as_str(), words)?;
    Some(Verify {
        certificate: certificate.as_str(),
        over,
    })
}

// How many nodes the words behind `sample` name.
fn read_sample(words: &[String]) -> Option<u32>
    ensures { result ≡ sample_of (texts words.now) }
{
    let (count, words) = words.split_first()?;
    if !words.is_empty() {
        return None;
    }
    size_of(count.as_str())
}

// Which arcs count, and the words behind the one that chooses them.
fn arcs_chosen(words: &[String]) -> (ArcKind, &[String])
    ensures { (result.0, texts result.1.now) ≡ arcs_chosen (texts words.now) }
{
    let Some((first, rest)) = words.split_first() else {
        return (ArcKind::New, words);
    };
    if first.as_str() == "--old-arcs" {
        (ArcKind::Old, rest)
    } else {
        (ArcKind::New, words)
    }
}

// What the words behind `check` name, without the one that chooses the arcs.
fn read_files(kind: ArcKind, words: &[String]) -> Option<Check<'_>>
    ensures { option_map named_check result ≡ check_of_kind kind (texts words.now) }
{
    let (mode, words) = words.split_first()?;
    read_rest(kind, mode.as_str(), words)
}

// The same, with the word of the mode apart.
fn read_rest<'a>(kind: ArcKind, mode: &str, words: &'a [String]) -> Option<Check<'a>>
    ensures { option_map named_check result ≡ check_of_kind kind (mode.now ∷ texts words.now) }
{
    let (report, documents) = words.split_first()?;
    if !(is_file_word(report.as_str()) && are_file_words(documents)) {
        return None;
    }
    let mode = mode_of(mode)?;
    Some(Check {
        kind,
        mode,
        report: report.as_str(),
        documents,
    })
}

fn mode_of(word: &str) -> Option<Mode>
    ensures { result ≡ mode_of word.now }
{
    if word == "rounding" {
        Some(Mode::Rounding)
    } else if word == "truncation" {
        Some(Mode::Truncation)
    } else {
        None
    }
}

fn is_sum(report: &str, total: &str, terms: &[String]) -> bool
    ensures { result ≡ is_sum report.now total.now (texts terms.now) }
{
    is_file_word(report) && is_name_word(total) && are_terms(terms)
}

fn are_terms(terms: &[String]) -> bool
    ensures { result ≡ are_terms (texts terms.now) }
{
    for term in terms {
        if !is_term_word(term.as_str()) {
            return false;
        }
    }
    !terms.is_empty()
}

fn are_file_words(words: &[String]) -> bool
    ensures { result ≡ are_file_words (texts words.now) }
{
    for word in words {
        if !is_file_word(word.as_str()) {
            return false;
        }
    }
    !words.is_empty()
}

fn is_file_word(word: &str) -> bool
    ensures { result ≡ is_file_word word.now }
{
    match word.as_bytes() {
        [] => false,
        [first, ..] => *first != b'-',
    }
}

fn is_name_word(word: &str) -> bool
    ensures { result ≡ is_name_word word.now }
{
    split(word).is_some()
}

fn is_term_word(word: &str) -> bool
    ensures { result ≡ is_term_word word.now }
{
    is_signed(word) && is_name_word(name_of(word))
}

/// The name of a contributor, without its sign.
pub fn name_of(term: &str) -> &str
    ensures { result.now ≡ name_of term.now }
{
    if is_signed(term) { &term[1..] } else { "" }
}

fn is_signed(term: &str) -> bool
    ensures { result ≡ is_signed term.now }
{
    match term.as_bytes() {
        [] => false,
        [sign, ..] => *sign == b'+' || *sign == b'-',
    }
}

/// Whether a contributor is taken away.
pub fn is_negative(term: &str) -> bool
    ensures { result ≡ is_negative term.now }
{
    match term.as_bytes() {
        [] => false,
        [sign, ..] => *sign == b'-',
    }
}

// The number of nodes that a word spells.
fn size_of(word: &str) -> Option<u32>
    ensures { result ≡ size_of word.now }
{
    if !is_numeral(word) {
        return None;
    }
    match word.parse::<u32>() {
        Ok(count) => size(count),
        Err(_) => None,
    }
}

// This number of nodes, where a sample may have so many.
fn size(count: u32) -> Option<u32>
    ensures { result ≡ size count }
{
    if count >= 2 && count <= 100_000 {
        Some(count)
    } else {
        None
    }
}

// Decimal digits, of which the first is not 0.
fn is_numeral(word: &str) -> bool
    ensures { result ≡ is_numeral word.now }
{
    match word.as_bytes() {
        [] => false,
        [first, ..] => *first != b'0' && are_digits(word.as_bytes()),
    }
}

fn are_digits(bytes: &[u8]) -> bool
    ensures { result ≡ list_all is_ascii_digit bytes.now }
{
    bytes.iter().all(|byte| byte.is_ascii_digit())
}
