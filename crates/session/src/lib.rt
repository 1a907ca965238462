// A session, as the walk program takes it from its input: its bytes read into the places of its parts.
#![tactic(auto)]

ghost use Rattle.std.specs.Prelude.{◌≡◌, ◌≤◌, length};
ghost use Rattle.session.specs.Body.{count_place, facts_place, files_place, facts_in, end_at, is_sized, session_told, session_in, placed as placed_at, body_of};
ghost use Rattle.session.specs.Layout.{length_at, most_header, session_version, is_headed, most_session, session_of};
ghost use Rattle.machine.specs.Size.{most_words};

use facts::Facts;
use machine::{Length, Refusal};

// A session's length and count, where in its bytes the vector file, the predicate file and the program start, and the program
// ends, and the core's facts.
#[derive(Clone, Copy)]
pub struct FoundSession {
    pub k: usize,
    pub count: usize,
    pub vectors: usize,
    pub predicates: usize,
    pub program: usize,
    pub end: usize,
    pub facts: Facts,
}

// The mark, and the versions: the first, and the one with facts.
pub const MARK: [u8; 3] = *b"LNW";

pub const FIRST_VERSION: u64 = 1;

pub const FACTS_VERSION: u64 = 2;

// The bytes of the mark and of the fields after it: the version, k, the count and the facts.
pub const MARK_BYTES: usize = 3;

pub const VERSION_BYTES: usize = 2;

pub const LENGTH_BYTES: usize = 1;

pub const COUNT_BYTES: usize = 2;

pub const FACTS_BYTES: usize = 1;

// Where the version stands, and where k, with which the body starts.
pub const VERSION_AT: usize = MARK_BYTES;

pub const LENGTH_AT: usize = VERSION_AT + VERSION_BYTES;

// The bytes of the longest header, which has facts.
pub const MOST_HEADER: usize = LENGTH_AT + LENGTH_BYTES + COUNT_BYTES + FACTS_BYTES;

// The bytes of the longest session.
pub const MOST_SESSION: usize = MOST_HEADER
    + Length::VECTORS * Length::MOST_BYTES
    + Length::PREDICATES * Length::SEGMENT_PREDICATE * Length::MOST
    + Length::WORD_BYTES * Length::MOST_WORDS;

// The bytes of the longest session: more are none.
pub fn most_session() -> usize
    ensures { result ≡ most_session }
{
    MOST_SESSION
}

// Where the count of a body stands that starts so, and where its facts.
fn count_place(start: usize) -> usize
    requires { start ≤ length_at }
    ensures { result ≡ count_place start }
{
    start + LENGTH_BYTES
}

fn facts_place(start: usize) -> usize
    requires { start ≤ length_at }
    ensures { result ≡ facts_place start }
{
    count_place(start) + COUNT_BYTES
}

// Where its files start: past the facts where they are told, else in their place.
#[tactic(auto, unfolding(crate::specs::Body::files_place))]
fn files_place(start: usize, told: bool) -> usize
    requires { start ≤ length_at }
    ensures { result ≡ files_place start told }
{
    if told {
        facts_place(start) + FACTS_BYTES
    } else {
        facts_place(start)
    }
}

// Its byte of facts, which stands for all where they are not told.
#[tactic(auto, unfolding(crate::specs::Body::files_place))]
fn facts_byte(bytes: &[u8], start: usize, told: bool) -> u8
    requires { (start ≤ length_at) × (files_place start told ≤ length bytes.now) }
    ensures { result ≡ facts_in start told bytes.now }
{
    if told {
        bytes[facts_place(start)]
    } else {
        facts::ALL
    }
}

// Where the words end past so many bytes.
fn end_of(header: usize, k: Length, count: usize) -> usize
    requires { (header ≤ most_header) × (count ≤ most_words) }
    ensures { result ≡ end_at header k.units count }
{
    let words = Length::WORD_BYTES * count;
    header + k.vector_file() + k.predicate_file() + words
}

// The length, the count, where the parts past so many bytes lie, and the facts.
fn placed(header: usize, k: Length, count: usize, facts: Facts) -> FoundSession
    requires { (header ≤ most_header) × (count ≤ most_words) }
    ensures { session_told result ≡ placed_at header k.units count facts }
{
    let predicates = header + k.vector_file();
    let program = predicates + k.predicate_file();
    FoundSession {
        k: k.units,
        count,
        vectors: header,
        predicates,
        program,
        end: end_of(header, k, count),
        facts,
    }
}

// Whether the length is legal, and the words are not too many.
fn is_sized(k: usize, count: usize) -> bool
    ensures { result ≡ is_sized k count }
{
    machine::is_legal(k) && count <= Length::MOST_WORDS
}

// Reads the body that starts so, which more bytes may follow: where its parts lie, or SESSION.
#[tactic(auto, unfolding(crate::specs::Body::body_of))]
pub fn read_body(bytes: &[u8], start: usize, told: bool) -> Result<FoundSession, Refusal>
    requires { start ≤ length_at }
    ensures { session_in result ≡ body_of start told bytes.now }
{
    if bytes.len() < facts_place(start) {
        return Err(Refusal::Session);
    }
    let k = parts::number_at(bytes, start, LENGTH_BYTES) as usize;
    let count = parts::number_at(bytes, count_place(start), COUNT_BYTES) as usize;
    if !is_sized(k, count) {
        return Err(Refusal::Session);
    }
    let length = Length { units: k };
    let files = files_place(start, told);
    if bytes.len() < end_of(files, length, count) {
        return Err(Refusal::Session);
    }
    let byte = facts_byte(bytes, start, told);
    if facts::ALL < byte {
        return Err(Refusal::Session);
    }
    Ok(placed(files, length, count, facts::facts_of(byte)))
}

// The version.
fn version_of(bytes: &[u8]) -> u64
    requires { length_at ≤ length bytes.now }
    ensures { result ≡ session_version bytes.now }
{
    parts::number_at(bytes, VERSION_AT, VERSION_BYTES)
}

// Whether the bytes start with the mark and one of the versions.
fn is_headed(bytes: &[u8]) -> bool
    requires { length_at ≤ length bytes.now }
    ensures { result ≡ is_headed bytes.now }
{
    let version = version_of(bytes);
    parts::same_bytes(&bytes[..MARK_BYTES], &MARK)
        && (version == FIRST_VERSION || version == FACTS_VERSION)
}

// Reads bytes as a session: mark and version, the body, and nothing more; where its parts lie, or SESSION.
pub fn read_session(bytes: &[u8]) -> Result<FoundSession, Refusal>
    ensures { session_in result ≡ session_of bytes.now }
{
    if bytes.len() < LENGTH_AT || !is_headed(bytes) {
        return Err(Refusal::Session);
    }
    let body = read_body(bytes, LENGTH_AT, version_of(bytes) == FACTS_VERSION)?;
    if body.end != bytes.len() {
        return Err(Refusal::Session);
    }
    Ok(body)
}
