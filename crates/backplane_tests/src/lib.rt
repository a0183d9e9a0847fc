// Examples of both backplanes: images of ones and of mixed bits, frames of every length, every condition, and refusals.
#![tactic(auto)]

#[cfg(test)]
mod frames;
#[cfg(test)]
mod images;
