// What a member can learn, on worked shelves: no code, only rows about the calls' definitions. The theorem that they go by is in shelf/specs/Promises.antt,
// LearnsNothingElse; what it says in plain words is in docs/PROMISES.md.
#![tactic(auto)]
