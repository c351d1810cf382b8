// Tests of pages, and two functions that show what a caller knows of the surfaces below a layer.

#![tactic(auto)]

#[cfg(test)]
mod damage;
#[cfg(test)]
mod grids;
mod layered;
#[cfg(test)]
mod puts;
#[cfg(test)]
mod shelves;
#[cfg(test)]
mod stacks;
