//! Sessions that nobody uses.

ghost use Rattle.std.specs.Prelude.{◌≡◌, ◌++◌, [], ◌∷◌, IfOk, MatchOption, length, reverse};

use crate::folder::Folder;
use crate::life::Life;
use crate::session::Session;
use crate::shared::MAX_SESSIONS;
use std::alloc::{AllocError, Global};
use std::marker::Model;
use std::sync::ledger::Share;

/// How many sessions there is room for. Each has a part of the ledger, which has no more parts.
const PLACES: usize = MAX_SESSIONS as usize + 1;

/// Sessions that wait, for `SessionDesk` or a lock of one's own. All memory is taken at the
/// beginning, and there is room for each session of an engine: the shares of those that wait are
/// kept as one, and it has no more parts than their ledger.
#[derive(Drop)]
pub struct IdleSessions<G: Life> {
    /// The shares of all, as one.
    shares: Option<Share<G>>,
    folders: Vec<Folder>,
    /// Room for them as sessions. It is empty.
    room: Vec<Session<G>>,
}

impl<G: Life> Model for IdleSessions<G> {
    ghost use Rattle.std.specs.Prelude.{◌≡◌, ◌<◌, List, [], vec_capacity, vec_len};
    ghost use Rattle.std.specs.List.{sum_by};
    ghost use Rattle.std.specs.Option.{option_map_or};
    ghost use Rattle.settlement.specs.Counts.{written_in};
    ghost use Rattle.settlement.specs.declared.receipt.Receipt.{Receipt};

    ghost Value = { List (List Receipt) };

    ghost view = { λ it. it.folders.items };

    ghost invariant = { λ it. (option_map_or (λ all. all.parts) it.shares 0 ≡ vec_len it.folders)
        × (option_map_or (λ all. all.amount) it.shares 0 ≡ sum_by written_in it.folders.items)
        × (0 < vec_len it.folders → G.parts ≡ 65)
        × (vec_capacity it.folders ≡ 65) × (vec_capacity it.room ≡ 65) × (it.room.items ≡ []) };
}

impl<G: Life> IdleSessions<G> {
    /// None, with room for each session of an engine.
    pub fn new(alloc: Global) -> Result<IdleSessions<G>, AllocError>
        ensures { IfOk result (λ it. it ≡ []) }
    {
        Ok(IdleSessions {
            shares: None,
            folders: Vec::with_capacity(alloc, PLACES)?,
            room: Vec::with_capacity(alloc, PLACES)?,
        })
    }

    /// How many wait.
    pub fn len(&self) -> usize
        ensures { result ≡ length self.now }
    {
        self.folders.len()
    }

    /// Has a session wait, with its receipts and its share. It takes no memory.
    pub fn give_back(&mut self, session: Session<G>)
        ensures { self.new ≡ self.old ++ session ∷ [] }
    {
        let (folder, shares) = session.put_away(self.shares.take());
        self.shares = Some(shares);
        self.folders.push_reserved(folder);
    }

    /// The session that was given back last, with its receipts and its share, if one waits.
    pub fn take(&mut self) -> Option<Session<G>>
        ensures { MatchOption result ((self.old ≡ []) × (self.new ≡ []))
            (λ session. self.old ≡ self.new ++ session ∷ []) }
    {
        let folder = self.folders.pop()?;
        let Some(shares) = &mut self.shares else {
            unreachable!();
        };
        Some(Session::taken_out(folder, shares))
    }

    /// All that wait, the last one first. It takes no memory.
    pub fn into_sessions(self) -> Vec<Session<G>>
        ensures { result.items ≡ reverse self }
    {
        let IdleSessions {
            mut shares,
            mut folders,
            mut room,
        } = self;
        while let Some(folder) = folders.pop() {
            let Some(all) = &mut shares else {
                unreachable!();
            };
            room.push_reserved(Session::taken_out(folder, all));
        }
        room
    }
}
