// The words that the program was started with, each ended by a 0: a graph, and options, three of which take the next word.
ghost use Rattle.std.specs.Prelude.{◌≡◌, None};
ghost use Rattle.request.specs.Words.{words_of, kind_of, role_numbered, role_of, wanted_after, same_role, first_word, count_words, is_standard};
ghost use Rattle.request.specs.Faults.{fault_of, given_twice, incomplete, same_file, shared_input};
ghost use Rattle.request.specs.declared.ask.Role.{Role};

use cases::input::same_word;
use text::pieces::piece_end;

// What a word is: what one of the three options takes, such an option's name, or neither. Other is what no word is.
#[derive(Clone, Copy, PartialEq, Eq)]
pub enum Role {
    Out,
    Table,
    Ids,
    OutName,
    TableName,
    IdsName,
    Graph,
    Check,
    Unknown,
    Empty,
    Other,
}

// By number, in their order from 1 on; any other number is no word's.
impl From<u64> for Role {
    ghost from_gives = { λ n role. role ≡ role_numbered n };

    fn from(n: u64) -> Role {
        match n {
            1 => Role::Out,
            2 => Role::Table,
            3 => Role::Ids,
            4 => Role::OutName,
            5 => Role::TableName,
            6 => Role::IdsName,
            7 => Role::Graph,
            8 => Role::Check,
            9 => Role::Unknown,
            10 => Role::Empty,
            _ => Role::Other,
        }
    }
}

// What is wrong with the words.
#[derive(Clone, Copy, PartialEq, Eq)]
pub enum Fault {
    EmptyWord,
    UnknownOption,
    TwoGraphs,
    GivenTwice,
    Incomplete,
    SameFile,
    SharedInput,
}

const END: u8 = 0;

// A word that no option takes.
fn kind(word: &[u8]) -> Role
    ensures { result ≡ kind_of word.now }
{
    if same_word(word, b"-o") {
        return Role::OutName;
    }
    if same_word(word, b"-t") {
        return Role::TableName;
    }
    if same_word(word, b"-x") {
        return Role::IdsName;
    }
    if same_word(word, b"-c") {
        return Role::Check;
    }
    if word.len() < 2 {
        return Role::Graph;
    }
    if word[0] == b'-' {
        return Role::Unknown;
    }
    Role::Graph
}

fn role_of(wanted: Option<Role>, word: &[u8]) -> Role
    ensures { result ≡ role_of wanted word.now }
{
    if word.is_empty() {
        return Role::Empty;
    }
    match wanted {
        Some(role) => role,
        None => kind(word),
    }
}

// What the next word is to be, after one that is this; None is anything.
fn wanted_after(role: Role) -> Option<Role>
    ensures { result ≡ wanted_after role }
{
    match role {
        Role::OutName => Some(Role::Out),
        Role::TableName => Some(Role::Table),
        Role::IdsName => Some(Role::Ids),
        _ => None,
    }
}

fn same_role(a: Role, b: Role) -> bool
    ensures { result ≡ same_role a b }
{
    a == b
}

// The first word that is this; an empty part where there is none.
pub fn first<R: Into<Role>>(words: &[u8], role: R) -> &[u8]
    ensures { (this : Role) × R.converts role this × (result.now ≡ first_word this None (words_of words.now)) }
{
    let sought = role.into();
    let mut at: usize = 0;
    let mut wanted = None;
    loop {
        let end = piece_end(words, at, END);
        if end == words.len() {
            return &words[end..];
        }
        let this = role_of(wanted, &words[at..end]);
        if same_role(this, sought) {
            return &words[at..end];
        }
        wanted = wanted_after(this);
        at = end + 1;
    }
}

// How many words are this.
pub fn count<R: Into<Role>>(words: &[u8], role: R) -> usize
    ensures { (this : Role) × R.converts role this × (result ≡ count_words this None (words_of words.now)) }
{
    let sought = role.into();
    let mut n: usize = 0;
    let mut at: usize = 0;
    let mut wanted = None;
    loop {
        let end = piece_end(words, at, END);
        if end == words.len() {
            return n;
        }
        let this = role_of(wanted, &words[at..end]);
        n += usize::from(same_role(this, sought));
        wanted = wanted_after(this);
        at = end + 1;
    }
}

// No name and `-` are standard input or output.
pub fn is_standard(name: &[u8]) -> bool
    ensures { result ≡ is_standard name.now }
{
    name.is_empty() || same_word(name, b"-")
}

fn given_twice(words: &[u8]) -> bool
    ensures { result ≡ given_twice (words_of words.now) }
{
    if 1 < count(words, Role::Out) {
        return true;
    }
    if 1 < count(words, Role::Table) {
        return true;
    }
    if 1 < count(words, Role::Ids) {
        return true;
    }
    1 < count(words, Role::Check)
}

fn incomplete(words: &[u8]) -> bool
    ensures { result ≡ incomplete (words_of words.now) }
{
    if count(words, Role::Out) < count(words, Role::OutName) {
        return true;
    }
    if count(words, Role::Table) < count(words, Role::TableName) {
        return true;
    }
    count(words, Role::Ids) < count(words, Role::IdsName)
}

fn same_file(words: &[u8]) -> bool
    ensures { result ≡ same_file (words_of words.now) }
{
    let out = first(words, Role::Out);
    if is_standard(out) {
        return false;
    }
    same_word(out, first(words, Role::Table))
}

fn shared_input(words: &[u8]) -> bool
    ensures { result ≡ shared_input (words_of words.now) }
{
    if !same_word(first(words, Role::Ids), b"-") {
        return false;
    }
    is_standard(first(words, Role::Graph))
}

// What is wrong with them, the first of these.
pub fn first_fault(words: &[u8]) -> Option<Fault>
    ensures { result ≡ fault_of (words_of words.now) }
{
    if count(words, Role::Empty) != 0 {
        return Some(Fault::EmptyWord);
    }
    if count(words, Role::Unknown) != 0 {
        return Some(Fault::UnknownOption);
    }
    if 1 < count(words, Role::Graph) {
        return Some(Fault::TwoGraphs);
    }
    if given_twice(words) {
        return Some(Fault::GivenTwice);
    }
    if incomplete(words) {
        return Some(Fault::Incomplete);
    }
    if same_file(words) {
        return Some(Fault::SameFile);
    }
    if shared_input(words) {
        return Some(Fault::SharedInput);
    }
    None
}
