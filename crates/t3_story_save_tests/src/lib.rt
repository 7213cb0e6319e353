//! Tests of stories that save, restore and restart, and of drills: what their runs show, put and answer.
#![tactic(auto)]

#[cfg(test)]
mod devices;
#[cfg(test)]
mod drills;
#[cfg(test)]
mod player;
#[cfg(test)]
mod refusing;
#[cfg(test)]
mod restarting;
#[cfg(test)]
mod restoring;
#[cfg(test)]
mod saving;
#[cfg(test)]
mod story;
