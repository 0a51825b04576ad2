// What a desk and a card say to each other: no code, but that what the builder writes is what the engine reads, and what the engine answers is
// what the reader tells. The statements stand in specs/, their proofs in proofs/.
#![tactic(auto)]
