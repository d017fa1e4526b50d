ghost use Rattle.sv_sem_cases.specs.BankHistories.{Attacked, Resists};
ghost use Rattle.sv_sem_cases.specs.PointerHistories.{OneElement, TwoElements, NoElement, PoppedPointer, PopOfNothing, OneObject, DeletedField};
ghost use Rattle.sv_sem_cases.specs.CallHistories.{GasEnds, FailedReply, MisfitReply, MissingReply, GiftInside, NotPayable, NoVisit, FailedSend, SendThatSucceeds, SendOfTooMuch, LockHolds, ForcedEther, EtherBefore};
ghost use Rattle.sv_sem_cases.specs.ContractHistories.{Diamond, Precondition, TwoTurns, TooLittleGas, NoTurn, LoopThatBreaks, BreakWithoutGas, NeverBorn, Born, ModifierTwice, TokensFromNothing, NarrowSum, TypedResult, SeveralResults};
ghost use Rattle.sv_sem_cases.specs.Verdicts.{GiftBreaks, ConstructionBreaks, NeverBornHolds, NoGiftToTheUnborn, PreconditionIsNoLicence, WideLimitFails, PreconditionFails, BankFailsAtCall, LoopWithoutInvariant, NoInvariantNoFailure};
ghost use Rattle.sv_sem_cases.specs.HeldVerdicts.{NarrowSumHolds, LoopWithInvariantHolds, FailedSendHolds};
ghost use Rattle.sv_sem_cases.specs.LongVerdicts.{PointersMayBeOne, LockIsForgotten};

/// A bank that sends before it subtracts is attacked; one that subtracts first resists.
pub fn bank()
    ensures attacked { Attacked }
    ensures resists { Resists }
{}

/// Storage pointers, popped elements, and objects with two names.
pub fn pointers()
    ensures one_element { OneElement }
    ensures two_elements { TwoElements }
    ensures no_element { NoElement }
    ensures popped_pointer { PoppedPointer }
    ensures pop_of_nothing { PopOfNothing }
    ensures one_object { OneObject }
    ensures deleted_field { DeletedField }
{}

/// Gas, replies, locks, and forced ether.
pub fn calls()
    ensures gas_ends { GasEnds }
    ensures failed_reply { FailedReply }
    ensures misfit_reply { MisfitReply }
    ensures missing_reply { MissingReply }
    ensures gift_inside { GiftInside }
    ensures not_payable { NotPayable }
    ensures no_visit { NoVisit }
    ensures failed_send { FailedSend }
    ensures send_that_succeeds { SendThatSucceeds }
    ensures send_of_too_much { SendOfTooMuch }
    ensures lock_holds { LockHolds }
    ensures forced_ether { ForcedEther }
    ensures ether_before { EtherBefore }
{}

/// Inheritance, pre- and postconditions, loops, construction, modifiers, and a typed call.
pub fn contracts()
    ensures diamond { Diamond }
    ensures precondition { Precondition }
    ensures two_turns { TwoTurns }
    ensures too_little_gas { TooLittleGas }
    ensures no_turn { NoTurn }
    ensures loop_that_breaks { LoopThatBreaks }
    ensures break_without_gas { BreakWithoutGas }
    ensures never_born { NeverBorn }
    ensures born { Born }
    ensures modifier_twice { ModifierTwice }
    ensures tokens_from_nothing { TokensFromNothing }
    ensures narrow_sum { NarrowSum }
    ensures typed_result { TypedResult }
    ensures several_results { SeveralResults }
{}

/// Checks that may fail, and checks that can't.
pub fn verdicts()
    ensures gift_breaks { GiftBreaks }
    ensures construction_breaks { ConstructionBreaks }
    ensures never_born_holds { NeverBornHolds }
    ensures no_gift_to_the_unborn { NoGiftToTheUnborn }
    ensures precondition_is_no_licence { PreconditionIsNoLicence }
    ensures wide_limit_fails { WideLimitFails }
    ensures precondition_fails { PreconditionFails }
    ensures bank_fails_at_call { BankFailsAtCall }
    ensures loop_without_invariant { LoopWithoutInvariant }
    ensures no_invariant_no_failure { NoInvariantNoFailure }
{}

/// Checks that fail at the end of longer runs.
pub fn long_verdicts()
    ensures pointers_may_be_one { PointersMayBeOne }
    ensures lock_is_forgotten { LockIsForgotten }
{}

/// Checks that can't fail: a narrow sum, a loop with its invariant, and a `send` that fails.
pub fn held_verdicts()
    ensures narrow_sum_holds { NarrowSumHolds }
    ensures loop_with_invariant_holds { LoopWithInvariantHolds }
    ensures failed_send_holds { FailedSendHolds }
{}
