//! Tests of the journal and of the kinds of objects: `t3_undo`, `t3_tadsobj`, `t3_lists` and
//! `t3_tables`.
#![tactic(auto)]

#[cfg(test)]
mod cycles;
#[cfg(test)]
mod journal;
#[cfg(test)]
mod kinds;
#[cfg(test)]
mod orders;
#[cfg(test)]
mod plain_cells;
#[cfg(test)]
mod plain_journal;
#[cfg(test)]
mod plain_places;
#[cfg(test)]
mod tables;
#[cfg(test)]
mod tads_objects;
#[cfg(test)]
mod tried;
#[cfg(test)]
mod vectors;
