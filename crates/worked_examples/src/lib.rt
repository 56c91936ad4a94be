// Proves the rows P1 to P12 of document 01's table, document 02's small shots, and uses of laws at concrete values; it has no code.
// P1 to P12: `specs/Table.antt` and `proofs/Rows.antt`. Small shots: `specs/Requests.antt` and `proofs/Requested.antt`. Laws that no other proof
// cites: `specs/Uses.antt` and `proofs/UsedOfRecords.antt`, `proofs/UsedOfBoards.antt`, `proofs/UsedOfCorners.antt`, `proofs/UsedOfRestated.antt`,
// `proofs/UsedOfTexts.antt`.

#![tactic(auto)]
