// Proves which placements, markers and corners of a legacy record pair with which of the record restated (document 02, 2.7); it has no code.
// `specs/` has the statements: `Pairs.antt` of placements, `Answers.antt` of the results of Match.

#![tactic(auto)]
