// The starred examples of document 01 ("A small dock"), computed by the prover: laws, no services.
//
// What a caller may rely on:
//   specs/Cases.antt     the cases as entries of one list, each with the file's bytes and the answer that document 01 gives
//   proofs/Starred.antt  each of them holds of the definitions that the services' promises cite
#![tactic(auto)]
