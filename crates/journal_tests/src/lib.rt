//! Tests of journals, by their public calls alone, on the tapes of `test_logs`.
#![tactic(auto)]

#[cfg(test)]
mod accepting;
#[cfg(test)]
mod checkpoints;
#[cfg(test)]
mod compacted;
#[cfg(test)]
mod compaction_crashes;
#[cfg(test)]
mod crashes;
#[cfg(test)]
mod digests;
#[cfg(test)]
mod headers;
#[cfg(test)]
mod maps;
#[cfg(test)]
mod pieces;
#[cfg(test)]
mod records;
#[cfg(test)]
mod short_reads;
#[cfg(test)]
mod starts;
#[cfg(test)]
mod written;
#[cfg(test)]
mod written_parts;
