// The slack table: for a threshold, the greatest time in which each rest of a plan can still receive what it is sent. Laws of it, no
// services.
//
// What a caller may rely on:
//   specs/Split.antt      a problem at one threshold, in parts; what it means that modules serve a time
//   specs/Slack.antt      the table, as a recursion
//   proofs/Slack.antt     `slack_served`: x is below the slack just if some rest serves x; `slack_rises`: more cores leave no less
//   specs/Splits.antt     when a problem of the search splits, and what it means that some plan is found
//   proofs/Splits.antt    `plan_slack`, `found_feasible`: which thresholds are feasible, by the slack and in the search's terms
//   specs/Fill.antt       three tables that make one another: cheapest transfers, what copies leave, and the slack
//   proofs/Fill.antt      `slack_filled`: they give the slack; which entries each needs
//   specs/Problem.antt    a chain as a problem of the search, and as what a fill is given
//   proofs/Chain.antt     `found_slack`: of a chain, some plan is within a threshold just if some first module leaves a slack
//   proofs/Judged.antt    `judged_found`: a plan that keeps the rules is within the threshold of its bottleneck
//   proofs/Instance.antt  the chain's plans, rules and bottlenecks are the problem's
//   proofs/Enough.antt    `enough_tells`: the slack says just where there is a rest of so many cores
// For the programs' loops: proofs/After.antt (one cell, over a module's last task), Cheapest.antt (a row of words from which the cheapest
// transfers are read), Offers.antt (what copies leave), Growing.antt (a module that grows by a task), Greatest.antt.
#![tactic(auto)]
