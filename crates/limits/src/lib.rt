// Every limit and every refusal of networks, layers and chains, at and just beyond its edge, and each system's part number. There are tests
// here, and what they need.
#![tactic(auto)]

#[cfg(test)]
mod chains;
#[cfg(test)]
mod layers;
mod made;
#[cfg(test)]
mod networks;
#[cfg(test)]
mod parts;
