ghost use Rattle.std.specs.Prelude.{◌≡◌};
ghost use Rattle.xdb_script.specs.Fields.{same_word};
ghost use Rattle.xdb_script.specs.Reading.{found_read, found_client, found_db};
ghost use Rattle.xdb_script.specs.Verbs.{read_word, client_word, db_word, is_verb_in};

use crate::ScriptForm;
use xdb_key::compare;

/// What begins a question.
#[derive(Clone, Copy, Debug, PartialEq, Eq)]
pub enum ReadVerb {
    Get,
    Scan,
    RScan,
    First,
    Last,
    Next,
    Prev,
    Seek,
    SeekLt,
}

/// What a client says.
#[derive(Clone, Copy, Debug, PartialEq, Eq)]
pub enum ClientVerb {
    Put,
    Del,
    DelSpan,
    Batch,
    Read(ReadVerb),
    Begin,
    Settle,
    Snap,
    Drop,
    Status,
    Await,
    Cursor,
    Shut,
    Load,
    Install,
}

/// What the owner says.
#[derive(Clone, Copy, Debug, PartialEq, Eq)]
pub enum DbVerb {
    Seal,
    FlushTake,
    Put,
    CompactTake,
    Build,
    Work,
    Flush,
    Compact,
    Reap,
    Show,
}

const READ_VERBS: [ReadVerb; 9] = [
    ReadVerb::Get,
    ReadVerb::Scan,
    ReadVerb::RScan,
    ReadVerb::First,
    ReadVerb::Last,
    ReadVerb::Next,
    ReadVerb::Prev,
    ReadVerb::Seek,
    ReadVerb::SeekLt,
];

const CLIENT_VERBS: [ClientVerb; 23] = [
    ClientVerb::Put,
    ClientVerb::Del,
    ClientVerb::DelSpan,
    ClientVerb::Batch,
    ClientVerb::Begin,
    ClientVerb::Settle,
    ClientVerb::Snap,
    ClientVerb::Drop,
    ClientVerb::Status,
    ClientVerb::Await,
    ClientVerb::Cursor,
    ClientVerb::Shut,
    ClientVerb::Load,
    ClientVerb::Install,
    ClientVerb::Read(ReadVerb::Get),
    ClientVerb::Read(ReadVerb::Scan),
    ClientVerb::Read(ReadVerb::RScan),
    ClientVerb::Read(ReadVerb::First),
    ClientVerb::Read(ReadVerb::Last),
    ClientVerb::Read(ReadVerb::Next),
    ClientVerb::Read(ReadVerb::Prev),
    ClientVerb::Read(ReadVerb::Seek),
    ClientVerb::Read(ReadVerb::SeekLt),
];

const DB_VERBS: [DbVerb; 10] = [
    DbVerb::Seal,
    DbVerb::FlushTake,
    DbVerb::Put,
    DbVerb::CompactTake,
    DbVerb::Build,
    DbVerb::Work,
    DbVerb::Flush,
    DbVerb::Compact,
    DbVerb::Reap,
    DbVerb::Show,
];

impl ReadVerb {
    /// The verb of a question that is spelled so.
    pub fn of(word: &[u8]) -> Option<Self>
        ensures { result ≡ found_read word.now }
    {
        READ_VERBS
            .iter()
            .copied()
            .find(|verb| is_word(verb.word(), word))
    }

    fn word(self) -> &'static [u8]
        ensures { result.now ≡ read_word self }
    {
        match self {
            ReadVerb::Get => b"get",
            ReadVerb::Scan => b"scan",
            ReadVerb::RScan => b"rscan",
            ReadVerb::First => b"first",
            ReadVerb::Last => b"last",
            ReadVerb::Next => b"next",
            ReadVerb::Prev => b"prev",
            ReadVerb::Seek => b"seek",
            ReadVerb::SeekLt => b"seeklt",
        }
    }
}

impl ClientVerb {
    /// The verb of a client that is spelled so, in a script of the form.
    pub fn of(form: ScriptForm, word: &[u8]) -> Option<Self>
        ensures { result ≡ found_client form word.now }
    {
        CLIENT_VERBS
            .iter()
            .copied()
            .find(|verb| is_word(verb.word(), word) && verb.is_in(form))
    }

    /// Whether it may stand in a script of the form.
    fn is_in(self, form: ScriptForm) -> bool
        ensures { result ≡ is_verb_in form self }
    {
        match form {
            ScriptForm::Run => true,
            ScriptForm::Threads => !matches!(self, ClientVerb::Begin | ClientVerb::Settle),
        }
    }

    fn word(self) -> &'static [u8]
        ensures { result.now ≡ client_word self }
    {
        match self {
            ClientVerb::Put => b"put",
            ClientVerb::Del => b"del",
            ClientVerb::DelSpan => b"delspan",
            ClientVerb::Batch => b"batch",
            ClientVerb::Read(verb) => verb.word(),
            ClientVerb::Begin => b"begin",
            ClientVerb::Settle => b"settle",
            ClientVerb::Snap => b"snap",
            ClientVerb::Drop => b"drop",
            ClientVerb::Status => b"status",
            ClientVerb::Await => b"await",
            ClientVerb::Cursor => b"cursor",
            ClientVerb::Shut => b"shut",
            ClientVerb::Load => b"load",
            ClientVerb::Install => b"install",
        }
    }
}

impl DbVerb {
    /// The verb of the owner that is spelled so.
    pub fn of(word: &[u8]) -> Option<Self>
        ensures { result ≡ found_db word.now }
    {
        DB_VERBS
            .iter()
            .copied()
            .find(|verb| is_word(verb.word(), word))
    }

    fn word(self) -> &'static [u8]
        ensures { result.now ≡ db_word self }
    {
        match self {
            DbVerb::Seal => b"seal",
            DbVerb::FlushTake => b"flush-take",
            DbVerb::Put => b"put",
            DbVerb::CompactTake => b"compact-take",
            DbVerb::Build => b"build",
            DbVerb::Work => b"work",
            DbVerb::Flush => b"flush",
            DbVerb::Compact => b"compact",
            DbVerb::Reap => b"reap",
            DbVerb::Show => b"show",
        }
    }
}

/// Whether two words are one.
pub fn is_word(a: &[u8], b: &[u8]) -> bool
    ensures { result ≡ same_word a.now b.now }
{
    compare(a, b).is_eq()
}
