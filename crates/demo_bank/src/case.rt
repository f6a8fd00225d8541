//! What is played, and what is done with it.

ghost use Rattle.std.specs.Prelude.{◌≤◌, IfSome};

/// What the words of the command line ask for.
#[derive(Drop)]
pub enum Command<'a> {
    /// A day in memory.
    Memory(Call<'a>),
    /// A day on files in this folder, in which each teller makes so many transfers.
    Files {
        folder: &'a str,
        case: Case,
        transfers: u32,
    },
}

impl<'a> Command<'a> {
    /// What these words order, or nothing where they are none of its forms.
    pub fn of(words: &'a [String]) -> Option<Command<'a>> {
        match words {
            [option, folder, rest @ .., transfers] if option.as_str() == "--files" => {
                Some(Command::Files {
                    folder: folder.as_str(),
                    case: Case::of(rest)?,
                    transfers: count_of(transfers.as_str(), MOST_TRANSFERS)?,
                })
            }
            _ => Some(Command::Memory(Call::of(words)?)),
        }
    }
}

/// A day in memory, and what is done with it.
#[derive(Drop)]
pub struct Call<'a> {
    pub case: Case,
    /// Also how many pages were changed behind each copy is told, which hangs on the schedule.
    pub tells_behind: bool,
    /// The folder in which the files are saved.
    pub save: Option<&'a str>,
}

impl<'a> Call<'a> {
    fn of(words: &'a [String]) -> Option<Call<'a>> {
        let (tells_behind, words) = match words {
            [option, rest @ ..] if option.as_str() == "--behind" => (true, rest),
            _ => (false, words),
        };
        let (save, words) = match words {
            [option, folder, rest @ ..] if option.as_str() == "--save" => {
                (Some(folder.as_str()), rest)
            }
            _ => (None, words),
        };
        Some(Call {
            case: Case::of(words)?,
            tells_behind,
            save,
        })
    }
}

/// The seed from which all is drawn, and how many threads there are.
#[derive(Clone, Copy)]
pub struct Case {
    pub seed: u64,
    /// How many sessions move money, each in a thread of its own.
    pub tellers: u32,
    /// How many workers make the full copy, and the incremental one.
    pub full: Workers,
    pub incremental: Workers,
}

/// How many workers a copy has.
#[derive(Clone, Copy)]
pub struct Workers {
    count: u32,
    ghost some: { 1 ≤ count },
    ghost few: { count ≤ 64 },
}

/// How many tellers there may be, and how many workers of a copy.
const MOST_TELLERS: u32 = 32;

const MOST_WORKERS: u32 = 64;

/// How many transfers a teller may make on files.
const MOST_TRANSFERS: u32 = 1_000_000;

impl Workers {
    fn of(word: &str) -> Option<Workers> {
        let count = count_of(word, MOST_WORKERS)?;
        Some(Workers { count })
    }

    /// How many they are.
    pub fn count(self) -> u32
        ensures some { 1 ≤ result }
        ensures few { result ≤ 64 }
    {
        self.count
    }
}

impl Case {
    /// The case that these words tell: the seed, and the counts of tellers and of workers.
    fn of(words: &[String]) -> Option<Case> {
        let [seed, tellers, full, incremental] = words else {
            return None;
        };
        Some(Case {
            seed: seed.as_str().parse().ok()?,
            tellers: count_of(tellers.as_str(), MOST_TELLERS)?,
            full: Workers::of(full.as_str())?,
            incremental: Workers::of(incremental.as_str())?,
        })
    }
}

/// A number from 1 up to a bound.
fn count_of(word: &str, most: u32) -> Option<u32>
    ensures some { IfSome result (λ count. 1 ≤ count) }
    ensures few { IfSome result (λ count. count ≤ most) }
{
    let count = word.parse().ok()?;
    if count == 0 || count > most {
        return None;
    }
    Some(count)
}
