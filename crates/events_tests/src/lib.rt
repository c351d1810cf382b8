// Tests of events, stack and checks: every refusal at its edge and one past it, each rule of nesting
// alone, the order of the checks, and damaged copies of a good list.

#![tactic(auto)]

#[cfg(test)]
mod damaged;
#[cfg(test)]
mod events_alone;
#[cfg(test)]
mod made;
#[cfg(test)]
mod measured;
#[cfg(test)]
mod nesting;
#[cfg(test)]
mod stacks;
#[cfg(test)]
mod styles;
