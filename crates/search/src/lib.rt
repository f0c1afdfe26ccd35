// The mathematics of the search for the best plan (document 01, "Three services": Best plan), over an abstract problem: laws, no
// services.
//
// A problem is what a module may be (`allowed`), what it takes (`response`) and what it costs (`price`), as functions of its
// place; specs/Plan.antt says which. A change of the rules changes an instance, not the argument.
//
// What a caller may rely on:
//   specs/Every.antt     the definition that tries every plan: the first of the best that keep the rules
//   proofs/Answer.antt   what it finds is the plan of the least feasible threshold, and nothing where no plan keeps the rules
//   proofs/Best.antt     that plan beats every plan that keeps the rules
//   proofs/Outcome.antt  so the answer is the best plan, or no plan keeps the rules; and its bottleneck is the least of all
//   proofs/Tiers.antt    where the price is a unit for each core and a measure below it: cores decide, and then that measure
//   proofs/Sparing.antt  the first of the lightest plans within a threshold, found among modules of plans of the fewest cores
// For the program's loops: proofs/Loops.antt and Cheapest.antt (one cell), Steps.antt (the walk).
#![tactic(auto)]
