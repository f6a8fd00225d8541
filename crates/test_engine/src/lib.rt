//! Tests of the engine, of media recovery and of the parts of the program, through their public
//! items.
#![tactic(auto)]

#[cfg(test)]
mod asserts;
#[cfg(test)]
mod audits;
#[cfg(test)]
mod bytes;
#[cfg(test)]
mod calls;
#[cfg(test)]
mod chain_rows;
#[cfg(test)]
mod engine;
#[cfg(test)]
mod files;
#[cfg(test)]
mod four_pages;
#[cfg(test)]
mod groups;
#[cfg(test)]
mod growth;
#[cfg(test)]
mod narrow;
#[cfg(test)]
mod readers;
#[cfg(test)]
mod recovery;
#[cfg(test)]
mod restore_logs;
#[cfg(test)]
mod restore_order;
#[cfg(test)]
mod restore_readers;
#[cfg(test)]
mod rows;
#[cfg(test)]
mod runs;
#[cfg(test)]
mod saves;
#[cfg(test)]
mod scripts;
#[cfg(test)]
mod streams;
