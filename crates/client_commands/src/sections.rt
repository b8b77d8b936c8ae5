//! The sections of `INFO`.
ghost use Rattle.std.specs.Prelude.{◌≡◌};
ghost use Rattle.std.specs.List.{list_any};
ghost use Rattle.client_commands.specs.Sections.{asks_for, is_all, names, sections_from};

use crate::vocabulary::is_word;
use bytes::Bytes;

/// Which sections of `INFO` a client asks for. They stand here in the order in which a node tells them.
#[derive(Clone, Copy, Debug, PartialEq, Eq)]
pub struct Sections {
    pub server: bool,
    pub clients: bool,
    pub memory: bool,
    pub persistence: bool,
    pub stats: bool,
    pub replication: bool,
    pub cluster: bool,
    pub keyspace: bool,
    pub node: bool,
}

/// Returns the sections for which these words after `INFO` ask.
#[tactic(auto, unfolding(crate::specs::Sections::sections_from))]
pub(crate) fn read_sections(words: &[Bytes]) -> Sections
    ensures { result ≡ sections_from words.now }
{
    Sections {
        server: asks_for(words, b"server"),
        clients: asks_for(words, b"clients"),
        memory: asks_for(words, b"memory"),
        persistence: asks_for(words, b"persistence"),
        stats: asks_for(words, b"stats"),
        replication: asks_for(words, b"replication"),
        cluster: asks_for(words, b"cluster"),
        keyspace: asks_for(words, b"keyspace"),
        node: asks_for(words, b"node"),
    }
}

// Whether these words after `INFO` ask for the section of this name: one of them names it or all sections, or there is
// no word.
fn asks_for(words: &[Bytes], section: &[u8]) -> bool
    ensures { result ≡ asks_for words.now section.now }
{
    match words {
        [] => true,
        [_, ..] => is_named(words, section),
    }
}

// Whether one of these words names this section or all sections.
fn is_named(words: &[Bytes], section: &[u8]) -> bool
    ensures { result ≡ list_any (names section.now) words.now }
{
    words.iter().any(|word| names(word, section))
}

// Whether a word names this section or all sections.
fn names(word: &[u8], section: &[u8]) -> bool
    ensures { result ≡ names section.now word.now }
{
    is_word(word, section) || is_all(word)
}

// Whether a word stands for all sections.
#[tactic(auto, unfolding(crate::specs::Sections::is_all))]
fn is_all(word: &[u8]) -> bool
    ensures { result ≡ is_all word.now }
{
    is_word(word, b"all") || is_word(word, b"everything") || is_word(word, b"default")
}
