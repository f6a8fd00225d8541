//! Laws that relate the state of a page to its stored page.

ghost use Rattle.std.specs.Prelude.{ℕ, ◌≡◌, ◌≢◌, ◌<◌, ◌≤◌, [], length, slice_index_or, None};
ghost use Rattle.std.specs.Prelude.{Some, IsSome};
ghost use Rattle.std.specs.List.{All, Contains};
ghost use Rattle.log_records.specs.Coverage.{Covers};
ghost use Rattle.log_records.specs.Image.{image};
ghost use Rattle.log_records.specs.Log.{Log};
ghost use Rattle.page_core.specs.declared.page.Page.{Page};
ghost use Rattle.log_records.specs.declared.dirty_page.DirtyPage.{DirtyPage};
ghost use Rattle.buffer_pool.specs.Frames.{IsResident};
ghost use Rattle.buffer_pool.specs.Pool.{IsEntryOf, IsPoolOf, PoolView, next_in, state_at};

use page_store::PageStore;

/// In the pool of a log a stored page lacks nothing below its RecLSN. Where the page is not dirty,
/// it is stored as it is now.
pub fn stored_pages_cover_their_rec_lsns<S: PageStore>()
    ensures dirty { (log : Log) (pool : PoolView S) (number rec : ℕ) (d : Page)
        → IsPoolOf S.stored log pool → number < length pool.states
        → number < length (S.stored pool.store) → (state_at pool number).rec_lsn ≡ Some rec
        → Covers log.records number (slice_index_or (S.stored pool.store) number d) rec }
    ensures clean { (log : Log) (pool : PoolView S) (number : ℕ) (d : Page)
        → IsPoolOf S.stored log pool → number < length pool.states
        → number < length (S.stored pool.store) → (state_at pool number).rec_lsn ≡ None
        → slice_index_or (S.stored pool.store) number d ≡ image log.records number }
{}

/// In the pool of a log each dirty page is resident, and a page that is being written is dirty. So
/// no frame is given up whose page has a change that is not stored, or a write in progress.
pub fn dirty_pages_are_resident<S: PageStore>()
    ensures dirty { (log : Log) (pool : PoolView S) (number : ℕ)
        → IsPoolOf S.stored log pool → number < length pool.states
        → IsSome (state_at pool number).rec_lsn → IsResident pool.resident number }
    ensures writing { (log : Log) (pool : PoolView S) (number : ℕ)
        → IsPoolOf S.stored log pool → number < length pool.states
        → IsSome (state_at pool number).writing → IsSome (state_at pool number).rec_lsn }
{}

/// The next dirty pages of a pool from a number on pass over none. Each of them is dirty as its
/// entry says; a page that is before one of them and that none of them names is clean; and where
/// there are none, each page from that number on is clean.
pub fn next_dirty_pages_pass_over_none<S: PageStore>()
    ensures named { (log : Log) (pool : PoolView S) (cursor : ℕ) (e : DirtyPage)
        → IsPoolOf S.stored log pool → Contains (next_in log pool cursor) e
        → IsEntryOf pool.states cursor e }
    ensures passed { (log : Log) (pool : PoolView S) (cursor number : ℕ) (e : DirtyPage)
        → IsPoolOf S.stored log pool → Contains (next_in log pool cursor) e
        → cursor ≤ number → number < e.page
        → All (λ other. other.page ≢ number) (next_in log pool cursor)
        → (state_at pool number).rec_lsn ≡ None }
    ensures none { (log : Log) (pool : PoolView S) (cursor number : ℕ)
        → IsPoolOf S.stored log pool → next_in log pool cursor ≡ []
        → cursor ≤ number → number < length pool.states
        → (state_at pool number).rec_lsn ≡ None }
{}
