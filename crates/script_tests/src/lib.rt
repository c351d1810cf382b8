// Tests of the script's language on values: what each line asks for, what is printed for it, and every fault at its edge.

#![tactic(auto)]

#[cfg(test)]
mod faults;
#[cfg(test)]
mod printing;
#[cfg(test)]
mod reading;
