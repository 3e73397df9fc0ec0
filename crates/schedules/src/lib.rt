// Runs of sample plans: what each call answers, compared whole.
#![tactic(auto)]

#[cfg(test)]
mod amounts;
#[cfg(test)]
mod calls;
#[cfg(test)]
mod driver;
#[cfg(test)]
mod foreign;
#[cfg(test)]
mod jobs;
#[cfg(test)]
mod kinds;
#[cfg(test)]
mod memory;
#[cfg(test)]
mod plans;
#[cfg(test)]
mod refusals;
