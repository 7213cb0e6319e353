//! Tests of `run` as a whole: what stories show, how runs end, and what stands where a device
//! fails.
#![tactic(auto)]

#[cfg(test)]
mod asking;
#[cfg(test)]
mod consoles;
#[cfg(test)]
mod devices;
#[cfg(test)]
mod hostile;
#[cfg(test)]
mod images;
#[cfg(test)]
mod run;
