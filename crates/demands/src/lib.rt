// The demands, proved. Each statement of crates/rules/specs/Demands.antt has its proof in the file of its name in proofs/:
// EveryAnswer, with EveryPoints, TheRules, EveryFile, OneClaim, and of an office EveryOfficeAnswer, with EveryRoughness, and
// EveryOffice; so have RatingsOnScale, EveryPage, EveryReason, OneHolds, GoodBudget, NoneGreater and EveryBlockPlan of
// crates/theorems/specs. What is promised of two offices on one unit stands in proofs/stations/, for the statements of
// StationDemands.antt: EveryStationAnswer, EveryStationFile, EveryStation, TablesAgree and LeavingOut, and EachOffice of
// specs/stations/. What is promised of four consoles before one planner stands in proofs/desks/, for those of DeskDemands.antt:
// EveryCall, EveryArrival, EveryStep, OnceInOrder, NobodyStarves, CarriedInTime, EveryRun and EveryDesk, and EachOffice of
// specs/desks/. There is no code here.
#![tactic(auto)]
